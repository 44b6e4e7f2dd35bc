// A text and what it was read as, laid out for a person.
use lent::part;
use std::io;
use std::io::Write;
use text::read::read;
use zone::form::{Form, Source};
use zone::record::Record;

// The most that is shown of a text in one line. No line of a form is longer.
const SHOWN: usize = 60;

pub(crate) fn title<W: Write>(out: &mut W, title: &[u8]) -> io::Result<()> {
    out.write_all(b"\n")?;
    out.write_all(title)?;
    out.write_all(b"\n")
}

// Prints a text, then its record, or its refusal with a caret under the place.
pub(crate) fn sample<W: Write>(out: &mut W, text: &[u8]) -> io::Result<()> {
    match read(Source::Alone, text) {
        Ok(kept) => {
            // No caret: the end of the text is in none of its lines.
            lines(out, text, text.len())?;
            record(out, &kept)
        }
        Err(refusal) => {
            lines(out, text, refusal.place)?;
            let number = refusal.cause.number();
            write!(
                out,
                "  refused, {number} at place {}: {}\n",
                refusal.place, refusal.cause
            )
        }
    }
}

// A text of a form by its lines, any other in one.
fn lines<W: Write>(out: &mut W, text: &[u8], place: usize) -> io::Result<()> {
    let Some(form) = Form::of_text(Source::Alone, text) else {
        return formless(out, text, place);
    };
    // How many lines there are, and how long each is.
    let (count, width) = match form {
        Form::Td1 => (3, 30),
        Form::Td2 | Form::MrvB => (2, 36),
        Form::Td3 | Form::MrvA => (2, 44),
    };
    for i in 0..count {
        line(out, text, i * width, width, place)?;
    }
    Ok(())
}

fn line<W: Write>(
    out: &mut W,
    text: &[u8],
    start: usize,
    width: usize,
    place: usize,
) -> io::Result<()> {
    out.write_all(b"    ")?;
    out.write_all(part(text, start, width))?;
    out.write_all(b"\n")?;
    caret(out, start, width, place)
}

// One that is too long is cut, and of none there is nothing to show.
fn formless<W: Write>(out: &mut W, text: &[u8], place: usize) -> io::Result<()> {
    if text.len() == 0 {
        return Ok(());
    }
    out.write_all(b"    ")?;
    out.write_all(part(text, 0, SHOWN))?;
    if SHOWN < text.len() {
        out.write_all(b" ..")?;
    }
    out.write_all(b"\n")?;
    caret(out, 0, SHOWN, place)
}

// A caret under the place, where that stands in the line above.
fn caret<W: Write>(out: &mut W, start: usize, width: usize, place: usize) -> io::Result<()> {
    if place < start {
        return Ok(());
    }
    let column = place - start;
    if column < width {
        out.write_all(b"    ")?;
        out.write_all(part(&[b' '; SHOWN], 0, column))?;
        out.write_all(b"^\n")?;
    }
    Ok(())
}

// In the order of document 01.
fn record<W: Write>(out: &mut W, kept: &Record) -> io::Result<()> {
    document(out, kept)?;
    holder(out, kept)?;
    own_data(out, kept)
}

fn document<W: Write>(out: &mut W, kept: &Record) -> io::Result<()> {
    write!(out, "  {:<13}{}\n", "form", kept.form)?;
    field(out, "code", &kept.code)?;
    field(out, "state", &kept.state)?;
    field(out, "number", part(&kept.number, 0, kept.number_len))
}

// From the nationality on.
fn holder<W: Write>(out: &mut W, kept: &Record) -> io::Result<()> {
    field(out, "nationality", &kept.nationality)?;
    field(out, "birth", &kept.birth)?;
    field(out, "sex", &[kept.sex])?;
    field(out, "expiry", &kept.expiry)?;
    field(out, "name", part(&kept.name, 0, kept.name_len))
}

// The issuer's own.
fn own_data<W: Write>(out: &mut W, kept: &Record) -> io::Result<()> {
    if kept.own_len == 0 {
        field(out, "data", b"none")
    } else {
        field(out, "data", part(&kept.own, 0, kept.own_len))
    }
}

fn field<W: Write>(out: &mut W, label: &str, characters: &[u8]) -> io::Result<()> {
    write!(out, "  {label:<13}")?;
    out.write_all(characters)?;
    out.write_all(b"\n")
}

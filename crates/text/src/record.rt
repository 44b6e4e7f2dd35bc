// The record of a text: each field copied to its place in the record, with fillers behind it.
ghost use Rattle.std.specs.Prelude.{◌≡◌, ◌++◌, length};
ghost use Rattle.zone.specs.Form.{field};
ghost use Rattle.zone.specs.Part.{name};
ghost use Rattle.zone.specs.Record.{padded, trimmed};
ghost use Rattle.zone.specs.Rooms.{number_room, name_room, own_room};
ghost use Rattle.text_digits.specs.Number.{number_by};
ghost use Rattle.text_digits.specs.Inner.Spans.{further_in};
ghost use Rattle.text.specs.Read.{own_in, record_by};

use text_digits::number::Span;
use zone::form::Form;
use zone::record::{Record, trimmed_length};
use zone::taken::{code_at, date_at, padded, sex_at, state_at};

fn name_chars(form: Form, text: &[u8]) -> [u8; Form::NAME]
    ensures { result ≡ padded name_room (trimmed (field form name text.now)) }
{
    let at = form.places();
    padded(lent::part(text, at.name, form.name_width()))
}

// The nine and the further characters, joined.
fn joined<'a>(nine: &'a [u8], further: &'a [u8]) -> [u8; Form::NUMBER]
    ensures { result ≡ padded number_room (nine.now ++ further.now) }
{
    let mut room = padded(nine);
    lent::copy_at(&mut room, nine.len(), further);
    room
}

// How many characters of the number stand in the optional field.
fn further_in(span: Span) -> usize
    ensures { result ≡ further_in span }
{
    match span {
        Span::Short => 0,
        Span::Long(further) => further as usize,
        Span::Bad => 0,
    }
}

fn number_chars(form: Form, text: &[u8], span: Span) -> [u8; Form::NUMBER]
    ensures { result ≡ padded number_room (number_by form text.now span) }
{
    let at = form.places();
    let nine = lent::part(text, at.number, Form::NINE);
    let optional = lent::part(text, at.optional, form.optional_width());
    joined(nine, lent::part(optional, 0, further_in(span)))
}

fn number_length(form: Form, text: &[u8], span: Span) -> usize
    ensures { result ≡ length (number_by form text.now span) }
{
    let at = form.places();
    let nine = lent::part(text, at.number, Form::NINE);
    match span {
        Span::Short => trimmed_length(nine),
        Span::Long(further) => {
            let optional = lent::part(text, at.optional, form.optional_width());
            let more = lent::part(optional, 0, further as usize);
            nine.len() + more.len()
        }
        Span::Bad => trimmed_length(nine),
    }
}

// The issuer's own data, behind what a number of n characters takes of their field.
fn own_chars(form: Form, text: &[u8], n: usize) -> [u8; Form::OWN]
    ensures { result ≡ padded own_room (trimmed (own_in form text.now n)) }
{
    let at = form.places();
    let field = lent::part(text, at.own, at.own_width);
    padded(lent::part(field, form.before_own(n), Form::OWN))
}

pub fn record_by(form: Form, text: &[u8], span: Span) -> Record
    ensures { result ≡ record_by form text.now span }
{
    let at = form.places();
    let code = code_at(text, at.code);
    let state = state_at(text, at.state);
    let number = number_chars(form, text, span);
    let number_len = number_length(form, text, span);
    let nationality = state_at(text, at.nationality);
    let birth = date_at(text, at.birth);
    let sex = sex_at(text, at.sex);
    let expiry = date_at(text, at.expiry);
    let name = name_chars(form, text);
    let name_len = trimmed_length(&name);
    let own = own_chars(form, text, number_len);
    let own_len = trimmed_length(&own);
    Record {
        form,
        code,
        state,
        number,
        number_len,
        nationality,
        birth,
        sex,
        expiry,
        name,
        name_len,
        own,
        own_len,
    }
}

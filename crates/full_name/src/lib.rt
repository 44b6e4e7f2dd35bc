// The full name of a passenger, from group 11 or, where that has none, from the text.
#![tactic(auto)]

ghost use Rattle.std.specs.Prelude.{◌≡◌, ◌≤◌};
ghost use Rattle.zone.specs.Rooms.{name_room};
ghost use Rattle.full_name.specs.FullName.{is_empty, in_file, name_at, in_text, full_name, full_name_part};

use tlv::Stretch;
use tlv::cut::cut;
use zone::form::{Form, Source};

const FULL_NAME: u32 = 0x5F0E;

const NOTHING: Stretch = Stretch { from: 0, to: 0 };

// Which of the two holds it. Kept beside the stretch, and not around it: C has both, and `full_name_within` speaks of the stretch
// of every answer.
#[derive(Clone, Copy)]
pub enum From {
    Nowhere,
    File,
    Text,
}

// And where.
#[derive(Clone, Copy)]
pub struct Name {
    pub from: From,
    pub stretch: Stretch,
}

fn is_empty(v: Stretch) -> bool
    ensures { result ≡ is_empty v }
{
    v.to <= v.from
}

fn in_file(file: &[u8]) -> Stretch
    ensures { result ≡ in_file file.now }
{
    details::read(file, FULL_NAME).unwrap_or(NOTHING)
}

fn name_at(form: Form, n: usize) -> Stretch
    requires { n ≤ name_room }
    ensures { result ≡ name_at form n }
{
    let start = form.places().name;
    Stretch {
        from: start,
        to: start + n,
    }
}

// The reading has counted the name's characters.
fn in_text(text: &[u8]) -> Name
    ensures { result ≡ in_text text.now }
{
    match text::read::read(Source::Alone, text) {
        Ok(kept) => Name {
            from: From::Text,
            stretch: name_at(kept.form, kept.name_len),
        },
        Err(_) => Name {
            from: From::Nowhere,
            stretch: NOTHING,
        },
    }
}

// Where the full name stands.
pub fn find(file: &[u8], text: &[u8]) -> Name
    ensures { result ≡ full_name file.now text.now }
{
    let held = in_file(file);
    if is_empty(held) {
        in_text(text)
    } else {
        Name {
            from: From::File,
            stretch: held,
        }
    }
}

// The full name, as a part of the one or of the other.
pub fn part<'a>(file: &'a [u8], text: &'a [u8]) -> &'a [u8]
    ensures { result.now ≡ full_name_part file.now text.now }
{
    let name = find(file, text);
    match name.from {
        From::File => cut(file, name.stretch),
        From::Text => cut(text, name.stretch),
        From::Nowhere => lent::part(text, 0, 0),
    }
}

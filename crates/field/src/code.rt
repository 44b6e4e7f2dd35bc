// The document code: two characters, by the kind of document that the form is of.
ghost use Rattle.std.specs.Prelude.{◌≡◌};
ghost use Rattle.field.specs.Code.{code_rule, card_rule, passport_rule, is_card_letter};

use crate::letters::is_letter_or_filler;
use zone::form::{Form, Kind, selects_visa};

// What a card's code may begin with.
fn is_card_letter(a: u8) -> bool
    ensures { result ≡ is_card_letter a }
{
    (a == b'A') | (a == b'C') | (a == b'I')
}

fn is_card(a: u8, b: u8) -> bool
    ensures { result ≡ card_rule a b }
{
    is_card_letter(a) & (is_letter_or_filler(b) & ((b != b'V') & !((a == b'A') & (b == b'C'))))
}

fn is_passport(a: u8, b: u8) -> bool
    ensures { result ≡ passport_rule a b }
{
    (a == b'P') & is_letter_or_filler(b)
}

pub fn is_code(form: Form, s: &[u8]) -> bool
    ensures { result ≡ code_rule form s.now }
{
    let a = lent::octet(s, 0);
    let b = lent::octet(s, 1);
    match form.kind() {
        Kind::Card => is_card(a, b),
        Kind::Passport => is_passport(a, b),
        Kind::Visa => selects_visa(a, b),
    }
}

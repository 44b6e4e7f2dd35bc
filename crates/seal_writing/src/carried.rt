// Whether version 03 can carry a header.
ghost use Rattle.std.specs.Prelude.{◌≡◌};
ghost use Rattle.seal_writing.specs.Carried.{is_emergency, is_signer, is_referred, is_carried};

use field::letters::is_state;
use seal_fields::day::is_day;
use seal_fields::hex::all_hex;
use seal_header::header::Header;
use seal_header::reference::is_letter_or_digit;
use zone::alphabet::{all_fillers, is_letter};

fn is_emergency(h: Header) -> bool
    ensures { result ≡ is_emergency h }
{
    (h.version == 0x03) & ((h.definition == 0x5E) & (h.category == 0x03))
}

fn is_signer(t: &[u8]) -> bool
    ensures { result ≡ is_signer t.now }
{
    let letters = is_letter(lent::octet(t, 0)) & is_letter(lent::octet(t, 1));
    letters & (is_letter_or_digit(lent::octet(t, 2)) & is_letter_or_digit(lent::octet(t, 3)))
}

fn is_referred(s: &[u8], n: usize) -> bool
    ensures { result ≡ is_referred s.now n }
{
    all_hex(lent::part(s, 0, n)) & all_fillers(lent::part(s, n, s.len()))
}

// The room that each field has is given by its type, and needs no test.
pub fn is_carried(h: Header) -> bool
    ensures { result ≡ is_carried h }
{
    let country = h.country;
    let signer = h.signer;
    let reference = h.reference;
    let issued = h.issued;
    let signed_on = h.signed_on;
    let stated = is_state(&country) & is_signer(&signer);
    let referred = is_referred(&reference, h.reference_len as usize);
    let dated = is_day(issued) & is_day(signed_on);
    is_emergency(h) & (stated & (referred & dated))
}

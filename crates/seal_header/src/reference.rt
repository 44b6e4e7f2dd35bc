// The signer and the certificate reference, one field: how long it is, its characters, and what they must be.
ghost use Rattle.std.specs.Prelude.{◌≡◌, ◌+◌, ◌≤◌, length, take};
ghost use Rattle.c40.specs.Field.{field_at};
ghost use Rattle.seal_header.specs.Reference.{more_by, reference_length, before, is_letter_or_digit, is_reference};

use seal_fields::hex::{all_hex, hex_of};
use zone::alphabet::{is_digit, is_letter};

// How many more characters the first six say.
fn more(s: &[u8]) -> usize
    ensures { (result ≡ more_by (field_at s.now 4 6)) × (result ≤ 255) }
{
    let mut six = [0u8; 6];
    if c40::field::field_at(s, 4, &mut six) {
        hex_of(six[4]) * 16 + hex_of(six[5])
    } else {
        0
    }
}

// All characters of the field.
pub(crate) fn length(s: &[u8]) -> usize
    ensures value { (result ≡ reference_length s.now) × (result ≤ before s.now + 255) }
    ensures upper_bound { result ≤ 261 }
{
    if lent::octet(s, 1) == 0x02 {
        9
    } else {
        6 + more(s)
    }
}

// The characters before the certificate reference.
pub(crate) fn before(s: &[u8]) -> usize
    ensures { result ≡ before s.now }
{
    if lent::octet(s, 1) == 0x02 { 4 } else { 6 }
}

// The characters, to the front of a range that has room for them; none where there are not as many.
pub(crate) fn read(s: &[u8], count: usize, room: &mut [u8]) -> usize
    requires { count ≤ length room.old }
    ensures { take result room.new ≡ field_at s.now 4 count }
{
    if c40::field::field_at(s, 4, &mut room[..count]) {
        count
    } else {
        0
    }
}

pub fn is_letter_or_digit(c: u8) -> bool
    ensures { result ≡ is_letter_or_digit c }
{
    is_letter(c) | is_digit(c)
}

// Two letters, two letters or digits, then 0-9 and A-F.
pub(crate) fn is_reference(t: &[u8]) -> bool
    ensures { result ≡ is_reference t.now }
{
    let letters = is_letter(lent::octet(t, 0)) & is_letter(lent::octet(t, 1));
    let others = is_letter_or_digit(lent::octet(t, 2)) & is_letter_or_digit(lent::octet(t, 3));
    letters & (others & all_hex(lent::part(t, 4, t.len())))
}

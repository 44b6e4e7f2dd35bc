// A pair of octets: the three values in it, and what they can stand for.
ghost use Rattle.std.specs.Prelude.{◌≡◌, ◌-◌, ◌≤◌};
ghost use Rattle.c40.specs.Values.{is_value, character_of};
ghost use Rattle.c40.specs.Reader.{number_of, values_of, is_three, is_two, is_one};
ghost use Rattle.c40.specs.Inner.Left.{Small};

use zone::alphabet::{is_digit, is_letter};

// Small numbers, of which 3 to 39 are values of characters.
#[derive(Clone, Copy)]
pub(crate) struct Triple {
    pub first: u32,
    pub second: u32,
    pub third: u32,
}

// 1 less than the number in two octets: the three values, packed. 0 stays 0, and no text has it.
fn packed(x: u8, y: u8) -> u32
    ensures { (result ≡ number_of x y - 1) × (result ≤ 65535) }
{
    (256 * u32::from(x) + u32::from(y)).saturating_sub(1)
}

// The values in a pair.
pub(crate) fn values_of(x: u8, y: u8) -> Triple
    ensures { (result ≡ values_of (number_of x y)) × Small result }
{
    let n = packed(x, y);
    Triple {
        first: n / 1600,
        second: n % 1600 / 40,
        third: n % 1600 % 40,
    }
}

fn is_value(v: u32) -> bool
    ensures { result ≡ is_value v }
{
    (3 <= v) & (v <= 39)
}

// Three characters.
pub(crate) fn is_three(v: Triple) -> bool
    ensures { result ≡ is_three v }
{
    is_value(v.first) & (is_value(v.second) & is_value(v.third))
}

// Two characters.
pub(crate) fn is_two(v: Triple) -> bool
    ensures { result ≡ is_two v }
{
    is_value(v.first) & (is_value(v.second) & (v.third == 0))
}

// One character: FE, and its code plus one.
pub(crate) fn is_one(x: u8, y: u8) -> bool
    ensures { result ≡ is_one x y }
{
    let c = y.saturating_sub(1);
    (x == 0xFE) & (is_digit(c) | (is_letter(c) | (c == b' ')))
}

// The character of a value.
pub(crate) fn character_of(v: u32) -> u8
    requires { v ≤ 40 }
    ensures { result ≡ character_of v }
{
    if v <= 3 {
        b' '
    } else if v <= 13 {
        (v - 4) as u8 + b'0'
    } else {
        (v - 14) as u8 + b'A'
    }
}

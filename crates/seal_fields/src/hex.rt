// Hexadecimal characters.
ghost use Rattle.std.specs.Prelude.{◌≡◌, ◌<◌};
ghost use Rattle.zone.specs.Alphabet.{every};
ghost use Rattle.seal_fields.specs.Hex.{is_hex, hex_of, hex_digit, hexadecimal};

use zone::alphabet::{Test, every, is_digit};

fn is_hex(c: u8) -> bool
    ensures { result ≡ is_hex c }
{
    is_digit(c) | ((b'A' <= c) & (c <= b'F'))
}

struct HexCharacters;

impl Test for HexCharacters {
    ghost test = { is_hex };

    fn passes(c: u8) -> bool {
        is_hex(c)
    }
}

// Of 0-9 and A-F only.
pub fn all_hex(s: &[u8]) -> bool
    ensures { result ≡ every is_hex s.now }
{
    every::<HexCharacters>(s)
}

// What a character says, 0 where it is none of them.
pub fn hex_of(c: u8) -> usize
    ensures { (result ≡ hex_of c) × (result < 16) }
{
    match c {
        b'0'..=b'9' => (c - b'0') as usize,
        b'A'..=b'F' => (c - b'A') as usize + 10,
        _ => 0,
    }
}

// The character of a number below 16.
fn hex_digit(d: u8) -> u8
    requires { d < 16 }
    ensures { result ≡ hex_digit d }
{
    if d <= 9 { d + b'0' } else { d - 10 + b'A' }
}

// A number in two characters.
pub fn two_of(n: u8) -> [u8; 2]
    ensures { result ≡ hexadecimal n }
{
    [hex_digit(n / 16), hex_digit(n % 16)]
}

// The code of a character, as an entry writes it.
ghost use Rattle.std.specs.Prelude.{◌≡◌, ℕ, ◌<◌, get_or};
ghost use Rattle.zone.specs.Codes.{code_of, character_of};

use crate::alphabet::{is_digit, is_letter};

// The characters by their codes; 0 for a code above 36: no character, so that no sound record holds it.
const CHARACTERS: [u8; 64] =
    *b"<0123456789ABCDEFGHIJKLMNOPQRSTUVWXYZ\0\0\0\0\0\0\0\0\0\0\0\0\0\0\0\0\0\0\0\0\0\0\0\0\0\0\0";

// `<` 0, digits 1-10, letters 11-36.
pub fn code_of(c: u8) -> u8
    ensures { (result ≡ code_of c) × (result < 64) }
{
    if is_digit(c) {
        return c - b'0' + 1;
    }
    if is_letter(c) {
        return c - b'A' + 11;
    }
    0
}

// Handed out by value, so that a field is read from one copy and not each character from its own.
pub fn characters() -> [u8; 64]
    ensures { (code : ℕ) → code < 64 → get_or result code 0 ≡ character_of code }
{
    CHARACTERS
}

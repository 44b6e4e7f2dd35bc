// What a character of the zone is.
ghost use Rattle.std.specs.Prelude.{◌≡◌, ℕ, Bool};
ghost use Rattle.zone.specs.Alphabet.{is_digit, is_letter, is_filler, is_character, every, first_foreign, first_filler};
ghost use Rattle.zone.specs.Inner.Tests.{IsTableOf};

pub const FILLER: u8 = b'<';

pub fn is_digit(c: u8) -> bool
    ensures { result ≡ is_digit c }
{
    (b'0' <= c) & (c <= b'9')
}

pub fn is_letter(c: u8) -> bool
    ensures { result ≡ is_letter c }
{
    (b'A' <= c) & (c <= b'Z')
}

pub fn is_character(c: u8) -> bool
    ensures { result ≡ is_character c }
{
    is_digit(c) | (is_letter(c) | (c == FILLER))
}

// A test of octets. Its method takes any, so that who asks it has no condition to meet.
pub trait Test {
    ghost test: { ℕ → Bool };

    fn passes(c: u8) -> bool
        ensures { result ≡ test c };
}

struct Characters;

impl Test for Characters {
    ghost test = { is_character };

    fn passes(c: u8) -> bool {
        is_character(c)
    }
}

struct Fillers;

impl Test for Fillers {
    ghost test = { is_filler };

    #[tactic(auto, unfolding(crate::specs::Alphabet::is_filler))]
    fn passes(c: u8) -> bool {
        c == FILLER
    }
}

// Whether every octet passes a test. The loop goes to the end in any case: so the compiler takes many octets at a time.
pub fn every<T: Test>(s: &[u8]) -> bool
    ensures { result ≡ every T.test s.now }
{
    let mut fine = true;
    for &c in s {
        fine &= T::passes(c);
    }
    fine
}

// The same, of many. The last sixteen first, and then by sixteens up to them: so none is left to be taken alone.
// Counted by hand, since chunks_exact takes nine instructions more of a text.
pub fn every_by_sixteens<T: Test>(s: &[u8]) -> bool
    ensures { result ≡ every T.test s.now }
{
    if s.len() < 16 {
        return every::<T>(s);
    }
    let from = s.len() - 16;
    let mut fine = every::<T>(&s[from..]);
    let mut i = 0;
    while i <= from {
        let to = i + 16;
        fine &= every::<T>(&s[i..to]);
        i = to;
    }
    fine
}

// The same of a test that is made while the program runs, from a closure, say: a table of its answers to each octet.
pub fn every_by_table(s: &[u8], answers: &[bool; 256]) -> bool
    ensures { (test : ℕ → Bool) → IsTableOf answers.now test → result ≡ every test s.now }
{
    let mut fine = true;
    for &octet in s {
        fine &= answers[octet as usize];
    }
    fine
}

// No octet outside the alphabet.
pub fn all_characters(s: &[u8]) -> bool
    ensures { result ≡ every is_character s.now }
{
    every_by_sixteens::<Characters>(s)
}

// Nothing but fillers.
pub fn all_fillers(s: &[u8]) -> bool
    ensures { result ≡ every is_filler s.now }
{
    every::<Fillers>(s)
}

// The place of the first octet outside the alphabet, or the length where there is none, as nearly always.
pub fn first_foreign(s: &[u8]) -> usize
    ensures { result ≡ first_foreign s.now }
{
    if all_characters(s) {
        return s.len();
    }
    s.iter().position(|&c| !is_character(c)).unwrap_or(s.len())
}

// The place of the first filler, or the length where there is none.
pub fn first_filler(s: &[u8]) -> usize
    ensures { result ≡ first_filler s.now }
{
    s.iter().position(|&c| c == FILLER).unwrap_or(s.len())
}

#[cfg(test)]
mod tests {
    use super::*;

    // From a closure that holds values of its own: the letters between two that are told while the program runs, and all that is
    // none of ASCII.
    #[test]
    fn told_by_a_table(rt: HostRuntime) {
        let (from, to) = (b'D', b'U');
        let passes = |c: u8| ((from <= c) & (c <= to)) | (0x80 <= c);
        let mut answers = [false; 256];
        for c in 0..256usize {
            answers[c] = passes(c as u8);
        }
        let cases = [
            ("", true),
            ("LEUT", true),
            ("DEUTSCHLAND", false),
            ("WEDLEUTEHIERGEHENDURGUETE", false),
            ("IHREDERGELTENDENGUETE", true),
            ("IHREDERGELTENDENGUET<", false),
            ("<HREDERGELTENDENGUETE", false),
            ("TEURE\u{c4}", true),
            ("TEURE\u{c4}<", false),
            ("teure\u{c4}", false),
        ];
        for (text, want) in cases {
            assert_eq!(rt;
                every_by_table(text.as_bytes(), &answers),
                want,
                "of {text}"
            );
        }
    }
}

// The fields of letters and fillers: state and nationality, sex, name.
ghost use Rattle.std.specs.Prelude.{◌≡◌, ◌||◌};
ghost use Rattle.field.specs.Letters.{state_rule, letters_then_fillers, sex_rule, name_rule, is_name_character};
ghost use Rattle.zone.specs.Alphabet.{is_letter, is_filler};

use zone::alphabet::{FILLER, Test, every_by_sixteens, is_letter};

pub(crate) fn is_letter_or_filler(c: u8) -> bool
    ensures { result ≡ is_letter c || is_filler c }
{
    is_letter(c) | (c == FILLER)
}

fn letters_then_fillers(a: u8, b: u8, c: u8) -> bool
    ensures { result ≡ letters_then_fillers a b c }
{
    if is_letter(b) {
        is_letter(a) & is_letter_or_filler(c)
    } else {
        is_letter(a) & ((b == FILLER) & (c == FILLER))
    }
}

// A state or a nationality.
pub fn is_state(s: &[u8]) -> bool
    ensures { result ≡ state_rule s.now }
{
    letters_then_fillers(lent::octet(s, 0), lent::octet(s, 1), lent::octet(s, 2))
}

pub fn is_sex(c: u8) -> bool
    ensures { result ≡ sex_rule c }
{
    (c == b'M') | (c == b'F') | (c == FILLER)
}

struct NameCharacters;

impl Test for NameCharacters {
    ghost test = { is_name_character };

    #[tactic(auto, unfolding(crate::specs::Letters::is_name_character))]
    fn passes(c: u8) -> bool {
        is_letter_or_filler(c)
    }
}

// Letters and fillers, the first a letter.
#[tactic(auto, unfolding(crate::specs::Letters::name_rule))]
pub fn is_name(s: &[u8]) -> bool
    ensures { result ≡ name_rule s.now }
{
    is_letter(lent::octet(s, 0)) & every_by_sixteens::<NameCharacters>(s)
}

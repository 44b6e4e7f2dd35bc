// Why an input is refused, and where: the cause, its number in document 01, and its place.
#![tactic(auto)]

ghost use Rattle.std.specs.Prelude.{◌≡◌};
ghost use Rattle.refusal.specs.Numbers.{no_digit, why_of, number_of, expected_of};
ghost use Rattle.refusal.specs.Outcome.{outcome_of, refused_unless};

use std::error::Error;
use std::fmt;

// What stands where no digit is expected.
pub const NO_DIGIT: u32 = 255;

// The causes in the order of their numbers: 1 to 18 of document 01, "Refusal numbers"; 19 of document 02, 2026-04, 20 of its
// 2026-01, 21 and 22 of its 2026-10, 23 of its 2026-14, 24 to 27 of its 2026-08 and 28 of its 2026-13. A check digit holds the
// one that was expected, 0 to 9.
#[derive(Clone, Copy, Debug, PartialEq, Eq)]
pub enum Cause {
    Length,
    Character,
    Code,
    State,
    Number,
    Date,
    Sex,
    Name,
    Digit(u8),
    Encoding,
    EfCom,
    SecurityObject,
    Algorithm,
    Group,
    Digest,
    Output,
    Unsound,
    Entry,
    Versions,
    Details,
    Depth,
    Templates,
    Order,
    SealHeader,
    SealFeature,
    SealText,
    SealSignature,
    SealInput,
}

impl Cause {
    // The paper's number of the cause.
    pub fn number(self) -> u32
        ensures { result ≡ number_of (why_of self) }
    {
        match self {
            Cause::Length => 1,
            Cause::Character => 2,
            Cause::Code => 3,
            Cause::State => 4,
            Cause::Number => 5,
            Cause::Date => 6,
            Cause::Sex => 7,
            Cause::Name => 8,
            Cause::Digit(_) => 9,
            Cause::Encoding => 10,
            Cause::EfCom => 11,
            Cause::SecurityObject => 12,
            Cause::Algorithm => 13,
            Cause::Group => 14,
            Cause::Digest => 15,
            Cause::Output => 16,
            Cause::Unsound => 17,
            Cause::Entry => 18,
            Cause::Versions => 19,
            Cause::Details => 20,
            Cause::Depth => 21,
            Cause::Templates => 22,
            Cause::Order => 23,
            Cause::SealHeader => 24,
            Cause::SealFeature => 25,
            Cause::SealText => 26,
            Cause::SealSignature => 27,
            Cause::SealInput => 28,
        }
    }

    // The digit that was expected.
    pub fn expected(self) -> u32
        ensures { result ≡ expected_of (why_of self) }
    {
        match self {
            Cause::Digit(digit) => digit as u32,
            _ => NO_DIGIT,
        }
    }
}

// The cause in the words of document 01, "Refusal numbers", as far as a text has it. Of a check digit also the one that was
// expected (document 02, 2026-07).
impl fmt::Display for Cause {
    fn fmt<W: fmt::Write>(&self, f: &mut fmt::Formatter<W>) -> fmt::Result {
        match *self {
            Cause::Length => write!(f, "text not 72, 88 or 90"),
            Cause::Character => write!(f, "character not A-Z, 0-9, <"),
            Cause::Code => write!(f, "document code"),
            Cause::State => write!(f, "state or nationality"),
            Cause::Number => write!(f, "document number"),
            Cause::Date => write!(f, "date"),
            Cause::Sex => write!(f, "sex"),
            Cause::Name => write!(f, "name"),
            Cause::Digit(expected) => write!(f, "check digit, expected {expected}"),
            _ => write!(f, "none of a text's causes"),
        }
    }
}

// A refusal holds its cause and its place, an offset from 0 in what was lent. It is the error of every reader and writer.
#[derive(Clone, Copy, Debug, PartialEq, Eq)]
pub struct Refusal {
    pub cause: Cause,
    pub place: usize,
}

impl Refusal {
    // What every call that writes answers to a range that is too short, and to a house or a record that is not sound.
    pub const TOO_SHORT: Refusal = Refusal {
        cause: Cause::Output,
        place: 0,
    };

    pub const UNSOUND: Refusal = Refusal {
        cause: Cause::Unsound,
        place: 0,
    };

    pub fn at(cause: Cause, place: usize) -> Refusal
        ensures { result ≡ record { cause = cause; place = place } }
    {
        Refusal { cause, place }
    }

    // A check: a rule that holds passes; one that does not is refused at its place.
    pub fn unless(holds: bool, cause: Cause, place: usize) -> Result<(), Refusal>
        ensures { outcome_of result ≡ refused_unless holds (why_of cause) place }
    {
        if holds {
            Ok(())
        } else {
            Err(Refusal::at(cause, place))
        }
    }
}

impl fmt::Display for Refusal {
    fn fmt<W: fmt::Write>(&self, f: &mut fmt::Formatter<W>) -> fmt::Result {
        let number = self.cause.number();
        write!(
            f,
            "refused, {number} at place {}: {}",
            self.place, self.cause
        )
    }
}

impl Error for Refusal {}

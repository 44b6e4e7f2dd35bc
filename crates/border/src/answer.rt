// What C receives of an answer: its numbers.
ghost use Rattle.std.specs.Prelude.{◌≡◌};
ghost use Rattle.refusal.specs.Length.{length_of, refused};
ghost use Rattle.refusal.specs.Numbers.{why_of};
ghost use Rattle.runs.specs.Run.{standing_of};
ghost use Rattle.border.specs.Answer.{not_refused, in_c};
ghost use Rattle.tlv.specs.Read.{read_of};
ghost use Rattle.border.specs.Calls.{next_in_c, stretch_in_c, count_in_c};

use crate::received::{AnswerInC, StretchInC};
use refusal::{NO_DIGIT, Refusal};
use runs::run::Standing;
use tlv::Stretch;

pub(crate) fn not_refused(value: u64) -> AnswerInC
    ensures { result ≡ not_refused value }
{
    AnswerInC {
        number: 0,
        expected: NO_DIGIT,
        value,
    }
}

#[tactic(auto, unfolding(crate::specs::Answer::in_c))]
impl From<Refusal> for AnswerInC {
    ghost from_gives = { λ refusal answer. answer ≡ in_c (refused (why_of refusal.cause) refusal.place) };

    fn from(refusal: Refusal) -> AnswerInC {
        AnswerInC {
            number: refusal.cause.number(),
            expected: refusal.cause.expected(),
            value: refusal.place as u64,
        }
    }
}

// How many octets were written, or how many elements a file or entries a list has.
#[tactic(auto, unfolding(crate::specs::Answer::in_c, crate::specs::Calls::count_in_c))]
impl From<Result<usize, Refusal>> for AnswerInC {
    ghost from_gives = { λ answer told. (told ≡ in_c (length_of answer)) × (told ≡ count_in_c (read_of answer)) };

    fn from(answer: Result<usize, Refusal>) -> AnswerInC {
        match answer {
            Ok(n) => not_refused(n as u64),
            Err(refusal) => AnswerInC::from(refusal),
        }
    }
}

#[tactic(auto, unfolding(crate::specs::Answer::in_c, crate::specs::Calls::next_in_c))]
impl From<Result<Option<Standing>, Refusal>> for AnswerInC {
    ghost from_gives = { λ found told. told ≡ next_in_c (standing_of found).onward };

    fn from(found: Result<Option<Standing>, Refusal>) -> AnswerInC {
        match found {
            Ok(Some(standing)) => not_refused(standing.next as u64),
            Ok(None) => not_refused(0),
            Err(refusal) => AnswerInC::from(refusal),
        }
    }
}

// A stretch ends where it starts, or behind it.
#[tactic(auto, unfolding(crate::specs::Calls::stretch_in_c))]
impl From<Stretch> for StretchInC {
    ghost from_gives = { λ v stretch. stretch ≡ stretch_in_c v };

    fn from(v: Stretch) -> StretchInC {
        StretchInC {
            start: v.from as u64,
            length: v.to.saturating_sub(v.from) as u64,
        }
    }
}

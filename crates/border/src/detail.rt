// What C receives of group 11's details and of the full name.
ghost use Rattle.std.specs.Prelude.{◌≡◌};
ghost use Rattle.tlv.specs.Read.{read_of};
ghost use Rattle.border.specs.Details.{detail_in_c, source_in_c, name_in_c};

use crate::answer::not_refused;
use crate::received::{AnswerInC, DetailInC, NameInC, StretchInC};
use full_name::Name;
use refusal::Refusal;
use tlv::Stretch;

#[tactic(auto, unfolding(crate::specs::Details::detail_in_c, crate::specs::Answer::in_c))]
impl From<Result<Stretch, Refusal>> for DetailInC {
    ghost from_gives = { λ detail told. told ≡ detail_in_c (read_of detail) };

    fn from(detail: Result<Stretch, Refusal>) -> DetailInC {
        match detail {
            Ok(v) => DetailInC {
                answer: not_refused(0),
                stretch: StretchInC::from(v),
            },
            Err(refusal) => DetailInC {
                answer: AnswerInC::from(refusal),
                stretch: StretchInC {
                    start: 0,
                    length: 0,
                },
            },
        }
    }
}

#[tactic(auto, unfolding(crate::specs::Details::source_in_c))]
fn source_in_c(from: full_name::From) -> u32
    ensures { result ≡ source_in_c from }
{
    match from {
        full_name::From::Nowhere => 0,
        full_name::From::File => 1,
        full_name::From::Text => 2,
    }
}

#[tactic(auto, unfolding(crate::specs::Details::name_in_c))]
impl From<Name> for NameInC {
    ghost from_gives = { λ name told. told ≡ name_in_c name };

    fn from(name: Name) -> NameInC {
        NameInC {
            from: source_in_c(name.from),
            stretch: StretchInC::from(name.stretch),
        }
    }
}

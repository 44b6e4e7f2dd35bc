// An answer as it passes to C: a number, an expected digit, a value and the seal's own fields.
ghost use Rattle.std.specs.Prelude.{◌≡◌};
ghost use Rattle.refusal.specs.Numbers.{why_of, number_of, expected_of};
ghost use Rattle.refusal.specs.Length.{length_of};
ghost use Rattle.seal_header.specs.Header.{blank_header};
ghost use Rattle.lamphudet_seals.specs.Answer.{day_in_c, fields_in_c, seal_in_c};

use crate::received::{DayInC, SealInC};
use border::received::StretchInC;
use refusal::{NO_DIGIT, Refusal};
use seal_fields::day::Day;
use seal_header::header::Header;
use tlv::Stretch;

#[tactic(auto, unfolding(crate::specs::Answer::day_in_c))]
impl From<Day> for DayInC {
    ghost from_gives = { λ d in_c. in_c ≡ day_in_c d };

    fn from(d: Day) -> DayInC {
        DayInC {
            year: d.year,
            month: d.month,
            day: d.day,
        }
    }
}

#[tactic(auto, unfolding(crate::specs::Answer::fields_in_c))]
fn fields_in_c(
    number: u32,
    expected: u32,
    value: u64,
    header: Header,
    signature: Stretch,
) -> SealInC
    ensures { result ≡ fields_in_c number expected value header signature }
{
    let country = header.country;
    let signer = header.signer;
    let reference = header.reference;
    SealInC {
        number,
        expected,
        value,
        signature: StretchInC::from(signature),
        issued: DayInC::from(header.issued),
        signed_on: DayInC::from(header.signed_on),
        version: header.version,
        definition: header.definition,
        category: header.category,
        reference_len: header.reference_len,
        country,
        signer,
        reference,
    }
}

// Every refusal, also of the house or of the range for the entry, comes over blank fields.
#[tactic(auto, unfolding(crate::specs::Answer::seal_in_c))]
pub(crate) fn seal_in_c(
    written: Result<usize, Refusal>,
    header: Header,
    signature: Stretch,
) -> SealInC
    ensures { result ≡ seal_in_c (length_of written) header signature }
{
    match written {
        Ok(n) => fields_in_c(0, NO_DIGIT, n as u64, header, signature),
        Err(why) => SealInC::from(why),
    }
}

impl From<Refusal> for SealInC {
    ghost from_gives = { λ why seal. seal ≡ fields_in_c (number_of (why_of why.cause)) (expected_of (why_of why.cause)) why.place
        blank_header (record { from = 0; to = 0 }) };

    fn from(why: Refusal) -> SealInC {
        let none = Stretch { from: 0, to: 0 };
        fields_in_c(
            why.cause.number(),
            why.cause.expected(),
            why.place as u64,
            Header::blank(),
            none,
        )
    }
}

// A seal that a C host gives to be written: its header's fields, and its record as the one entry that is lent.
ghost use Rattle.std.specs.Prelude.{◌≡◌};
ghost use Rattle.refusal.specs.Length.{length_of};
ghost use Rattle.lamphudet_seals.specs.Given.{day_given, header_given, written_answer, written_out};

use crate::received::{DayInC, HeaderInC};
use as_entry::only;
use refusal::Refusal;
use seal_fields::day::Day;
use seal_header::header::Header;

#[tactic(auto, unfolding(crate::specs::Given::day_given))]
impl From<DayInC> for Day {
    ghost from_gives = { λ d given. given ≡ day_given d };

    fn from(d: DayInC) -> Day {
        Day {
            year: d.year,
            month: d.month,
            day: d.day,
        }
    }
}

#[tactic(auto, unfolding(crate::specs::Given::header_given))]
impl From<HeaderInC> for Header {
    ghost from_gives = { λ header given. given ≡ header_given header };

    fn from(header: HeaderInC) -> Header {
        let country = header.country;
        let signer = header.signer;
        let reference = header.reference;
        Header {
            version: header.version,
            country,
            signer,
            reference,
            reference_len: header.reference_len,
            issued: Day::from(header.issued),
            signed_on: Day::from(header.signed_on),
            definition: header.definition,
            category: header.category,
        }
    }
}

#[tactic(auto, unfolding(crate::specs::Given::written_answer, crate::specs::Given::written_out))]
pub(crate) fn write_one(
    range: &[u8],
    header: HeaderInC,
    signature: &[u8],
    out: &mut [u8],
) -> Result<usize, Refusal>
    ensures result_value { length_of result ≡ written_answer range.now header signature.now out.old }
    ensures out_after { out.new ≡ written_out range.now header signature.now out.old }
{
    let standing = only(range)?;
    seal_writing::write::write(Header::from(header), standing.kept, signature, out)
}

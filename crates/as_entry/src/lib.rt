// A record that passes as its entry: the one entry that is lent is written as a text, or opened. A seal's writer asks the same.
#![tactic(auto)]

ghost use Rattle.std.specs.Prelude.{◌≡◌};
ghost use Rattle.refusal.specs.Length.{length_of};
ghost use Rattle.as_entry.specs.Written.{IsOnly, written_answer, written_out};
ghost use Rattle.as_entry.specs.Opened.{opened_in_c};

use crate::received::RecordInC;
use crate::record::record_in_c;
use refusal::{Cause, Refusal};
use runs::run::Standing;
use zone::record::Record;

pub mod received;
mod record;

pub const NOT_ONE_ENTRY: Refusal = Refusal {
    cause: Cause::Entry,
    place: 0,
};

// The entry that a range is, where it holds one and nothing else: then the run goes on at its own end.
#[tactic(auto, unfolding(crate::specs::Written::is_only))]
pub fn only(range: &[u8]) -> Result<Standing, Refusal>
    ensures { IsOnly range.now result }
{
    match runs::run::next(range, 0) {
        Ok(Some(standing)) if standing.next == range.len() => Ok(standing),
        _ => Err(NOT_ONE_ENTRY),
    }
}

#[tactic(auto, unfolding(crate::specs::Written::written_answer, crate::specs::Written::written_out))]
pub fn write_one(range: &[u8], out: &mut [u8]) -> Result<usize, Refusal>
    ensures result_value { length_of result ≡ written_answer range.now out.old }
    ensures out_after { out.new ≡ written_out range.now out.old }
{
    let standing = only(range)?;
    writing::write::write(standing.kept, out)
}

// By itself, and not by `only`: so the record is copied once less.
#[tactic(auto, unfolding(crate::specs::Written::is_only, crate::specs::Opened::opened_in_c))]
pub fn open_one(range: &[u8]) -> RecordInC
    ensures { result ≡ opened_in_c range.now }
{
    match runs::run::next(range, 0) {
        Ok(Some(standing)) if standing.next == range.len() => {
            record_in_c(0, standing.house, standing.kept)
        }
        _ => record_in_c(NOT_ONE_ENTRY.cause.number(), 0, Record::blank()),
    }
}

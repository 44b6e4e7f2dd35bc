// List and elements side by side.
ghost use Rattle.std.specs.Prelude.{◌≡◌};
ghost use Rattle.refusal.specs.Outcome.{outcome_of};
ghost use Rattle.details.specs.Tags.{stands_for, tags_in};
ghost use Rattle.details.specs.Details.{given};
ghost use Rattle.details.specs.Inner.Places.{agrees_at, value_at, detail_here};

use crate::element::{TEMPLATE, held_at, tag_here};
use crate::list::tag_of;
use refusal::{Cause, Refusal};
use tlv::Stretch;

const OTHER_NAMES: u16 = 0x5F0F;

// What stands where a tag is named.
fn stands_for(named: u16) -> u16
    ensures { result ≡ stands_for named }
{
    if named == OTHER_NAMES {
        TEMPLATE
    } else {
        named
    }
}

// Whether the elements from a place on are those that are named, in their order.
pub(crate) fn agree(s: &[u8], tags: &[u8], start: usize, end: usize) -> Result<(), Refusal>
    ensures { outcome_of result ≡ agrees_at end s.now (tags_in tags.now) start }
{
    let mut at = start;
    for pair in tags.chunks(2) {
        if s.len() <= at {
            return Err(Refusal::at(Cause::Details, end));
        }
        if tag_here(s, at) != stands_for(tag_of(pair)) {
            return Err(Refusal::at(Cause::Details, at));
        }
        at = held_at(s, at).to;
    }
    Refusal::unless(s.len() <= at, Cause::Details, at)
}

// What is given of an element: its value, of the template the whole.
fn given(s: &[u8], at: usize) -> Stretch
    ensures { result ≡ given (detail_here s.now at) }
{
    let held = held_at(s, at);
    if s.len() <= at {
        return held;
    }
    if tag_here(s, at) == TEMPLATE {
        Stretch {
            from: at,
            to: held.to,
        }
    } else {
        held
    }
}

// What stands where the asked tag is named.
pub(crate) fn value_for(s: &[u8], tags: &[u8], start: usize, asked: u32) -> Stretch
    ensures { result ≡ value_at asked s.now (tags_in tags.now) start }
{
    let mut at = start;
    for pair in tags.chunks(2) {
        if tag_of(pair) as u32 == asked {
            return given(s, at);
        }
        at = held_at(s, at).to;
    }
    Stretch { from: 0, to: 0 }
}

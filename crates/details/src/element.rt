// The elements of group 11, whatever the list names.
ghost use Rattle.std.specs.Prelude.{◌≡◌, ◌≤◌, length};
ghost use Rattle.refusal.specs.Outcome.{outcome_of};
ghost use Rattle.tlv.specs.Read.{outcome_in, read_of};
ghost use Rattle.details.specs.Tags.{is_named, tag_here};
ghost use Rattle.details.specs.Details.{detail_at, details};
ghost use Rattle.details.specs.Inner.Places.{held_at};

use refusal::Refusal;
use tlv::Stretch;

pub(crate) const TEMPLATE: u16 = 0xA0;

pub(crate) fn is_named(tag: u16) -> bool
    ensures { result ≡ is_named tag }
{
    ((0x5F0E <= tag) & (tag <= 0x5F18)) | ((tag == 0x5F2B) | (tag == 0x5F42))
}

// The tag that stands at a place within what was lent.
pub(crate) fn tag_here(s: &[u8], at: usize) -> u16
    requires { at ≤ length s.now }
    ensures { result ≡ tag_here s.now at }
{
    let first = lent::octet(s, at) as u16;
    if first == TEMPLATE {
        return TEMPLATE;
    }
    first * 256 + lent::octet(s, at + 1) as u16
}

// The value of the element that stands at a place.
fn detail_at(s: &[u8], at: usize) -> Result<Stretch, Refusal>
    ensures { read_of result ≡ detail_at s.now at }
{
    if s.len() <= at {
        return tlv::refuse(at);
    }
    let tag = tag_here(s, at);
    if tag == TEMPLATE {
        return tlv::element(s, at, TEMPLATE);
    }
    if is_named(tag) {
        tlv::behind_tag(s, at, true)
    } else {
        tlv::refuse(at)
    }
}

// The same of one that is rightly coded; of others nothing, at that place.
pub(crate) fn held_at(s: &[u8], at: usize) -> Stretch
    ensures { result ≡ held_at s.now at }
{
    detail_at(s, at).unwrap_or(Stretch { from: at, to: at })
}

// Those from a place up to the end, each rightly coded.
pub(crate) fn all(s: &[u8], start: usize) -> Result<(), Refusal>
    ensures { outcome_of result ≡ outcome_in (details s.now start) }
{
    let mut at = start;
    while at < s.len() {
        at = detail_at(s, at)?.to;
    }
    Ok(())
}

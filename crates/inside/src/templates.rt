// The count of templates in a file whose elements are rightly coded: one pass over those directly in it, and one over those in
// its first 7F61.
ghost use Rattle.std.specs.Prelude.{◌≡◌, ◌+◌, ◌<◌, ◌≤◌, ◌^◌, length};
ghost use Rattle.refusal.specs.Outcome.{outcome_of};
ghost use Rattle.tlv.specs.Element.{size_at, tag_width};
ghost use Rattle.tlv.specs.Places.{stretch_by};
ghost use Rattle.tree.specs.Tag.{tag_here};
ghost use Rattle.inside.specs.Templates.{value_here, count_holds, templates_check, count_check};
ghost use Rattle.inside.specs.Inner.Tally.{tallied};

use refusal::{Cause, Refusal};
use tlv::Stretch;

const TEMPLATE_GROUP: u16 = 0x7F61;

const TEMPLATE: u16 = 0x7F60;

// The first place of elements with a tag, and how many they are.
#[derive(Clone, Copy, Debug, PartialEq, Eq)]
struct Tally {
    first: Option<usize>,
    times: usize,
}

// The tag that stands at a place within what was lent.
fn tag_here(s: &[u8], at: usize) -> u16
    requires { at ≤ length s.now }
    ensures { result ≡ tag_here s.now at }
{
    let first = lent::octet(s, at) as u16;
    if first % 32 == 31 {
        first * 256 + lent::octet(s, at + 1) as u16
    } else {
        first
    }
}

// Where the tag ends that stands at a place within what was lent.
fn tag_end(s: &[u8], at: usize) -> usize
    requires { at ≤ length s.now }
    ensures { (result ≡ at + tag_width (tag_here s.now at)) × (result ≤ at + 2) }
{
    if lent::octet(s, at) % 32 == 31 {
        at + 2
    } else {
        at + 1
    }
}

// Where the value stands whose length is told at a place. Most lengths are told by one octet.
fn value_by(s: &[u8], place: usize) -> Stretch
    requires { place < 2 ^ 63 + 3 }
    ensures { (result ≡ stretch_by place (size_at s.now place)) × (result.from ≤ place + 3) }
{
    let a = lent::octet(s, place);
    if a <= 0x7F {
        let from = place + 1;
        return Stretch {
            from,
            to: from + a as usize,
        };
    }
    let b = lent::octet(s, place + 1);
    let c = lent::octet(s, place + 2);
    match tlv::size_of(a, b, c) {
        Some(z) => {
            let from = place + z.told;
            Stretch {
                from,
                to: from + z.count,
            }
        }
        None => Stretch {
            from: place,
            to: place,
        },
    }
}

// Where the value stands of the element at a place within what was lent, as its length says.
fn value_here(s: &[u8], at: usize) -> Stretch
    requires { at ≤ length s.now }
    ensures { (result ≡ value_here s.now at) × (result.from ≤ at + 5) }
{
    value_by(s, tag_end(s, at))
}

// The elements with a tag that stand directly in what was lent, from a place on.
fn tally_of(s: &[u8], start: usize, tag: u16) -> Tally
    ensures { result ≡ tallied s.now tag start }
{
    let mut at = start;
    let mut first = None;
    let mut times = 0;
    while at < s.len() {
        let value = value_here(s, at);
        if tag_here(s, at) == tag {
            first = first.or(Some(at));
            times += 1;
        }
        at = value.to;
    }
    Tally { first, times }
}

// Of the octets up to the end of 7F61, from where its value begins.
fn count_holds(s: &[u8], at: usize, group: u8) -> bool
    requires { at < 2 ^ 63 + 8 }
    ensures { result ≡ count_holds group s.now at }
{
    let n = lent::octet(s, at + 2);
    let held = tally_of(s, at, TEMPLATE);
    (lent::octet(s, at) == 0x02)
        & ((lent::octet(s, at + 1) == 0x01)
            & ((n as usize == held.times) & ((3 <= group) | (n != 0))))
}

// At the first 7F61, or at the file's start where it is missing: none stands there, since the file's own head does. Then nothing
// more is gone over.
fn templates_check(s: &[u8], at: usize, group: u8) -> Result<(), Refusal>
    ensures { outcome_of result ≡ templates_check group s.now at }
{
    let first = tally_of(s, at, TEMPLATE_GROUP).first.unwrap_or(0);
    if first == 0 {
        return Err(Refusal::at(Cause::Templates, 0));
    }
    let v = value_here(s, first);
    let holds = count_holds(lent::part(s, 0, v.to), v.from, group);
    Refusal::unless(holds, Cause::Templates, first)
}

pub(crate) fn count_check(s: &[u8], at: usize, group: u8) -> Result<(), Refusal>
    ensures { outcome_of result ≡ count_check group s.now at }
{
    if (2 <= group) & (group <= 4) {
        templates_check(s, at, group)
    } else {
        Ok(())
    }
}

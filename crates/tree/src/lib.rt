// A group's file as a tree: element walker and list walker, which call each other.
#![tactic(auto)]

ghost use Rattle.std.specs.Prelude.{◌≡◌, ◌&&◌, ltb, get_or};
ghost use Rattle.tlv.specs.Read.{read_of};
ghost use Rattle.tree.specs.Tag.{is_constructed};
ghost use Rattle.tree.specs.Inner.Passed.{passing, counting};

mod head;

use head::head;
use refusal::{Cause, Refusal};
use tlv::Stretch;

// How many elements there are in one, with itself, and where it ends.
#[derive(Clone, Copy, Debug, PartialEq, Eq)]
pub struct Passed {
    pub elements: usize,
    pub to: usize,
}

// Whether an element holds others: where it holds none, no list is walked.
fn opens(s: &[u8], at: usize, v: Stretch) -> bool
    ensures { result ≡ is_constructed (get_or s.now at 0) && ltb v.from v.to }
{
    (lent::octet(s, at) / 32 % 2 == 1) & (v.from < v.to)
}

// The element that stands at a place, and all that it holds: so many levels they may have. It is called from one place, the list
// walker's loop, so that the compiler puts it there.
#[cycle(element_list)]
fn element(s: &[u8], at: usize, levels: usize) -> Result<Passed, Refusal>
    ensures { read_of result ≡ passing levels s.now at }
{
    let v = head(s, at)?;
    if levels == 0 {
        return Err(Refusal::at(Cause::Depth, at));
    }
    let to = v.to;
    if !opens(s, at, v) {
        return Ok(Passed { elements: 1, to });
    }
    let held = list(&s[..to], v.from, levels - 1)?;
    Ok(Passed {
        elements: held + 1,
        to,
    })
}

// How many elements there are from a place up to the end of what holds them.
#[cycle(element_list)]
pub fn list(s: &[u8], start: usize, levels: usize) -> Result<usize, Refusal>
    ensures { read_of result ≡ counting levels s.now start }
{
    let mut at = start;
    let mut elements = 0;
    while at < s.len() {
        let passed = element(s, at, levels)?;
        elements += passed.elements;
        at = passed.to;
    }
    Ok(elements)
}

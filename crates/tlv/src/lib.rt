// Elements of tag, length and value, as they stand in a chip's files: one walker for every stage of a presentation.
#![tactic(auto)]

ghost use Rattle.std.specs.Prelude.{◌≡◌, cond, ◌+◌, ◌<◌, ◌≤◌, ◌^◌};
ghost use Rattle.refusal.specs.Numbers.{by};
ghost use Rattle.tlv.specs.Read.{refusal, read_of};
ghost use Rattle.tlv.specs.Element.{size_of, size_at, tag_at, tag_width, ends_within, sized, behind_tag, element};
ghost use Rattle.tlv.specs.Inner.Counts.{count_in};

pub mod cut;
pub mod tags;

use refusal::{Cause, Refusal};

// The octets of a value: from a place of what was lent up to another.
#[derive(Clone, Copy, Debug, PartialEq, Eq)]
pub struct Stretch {
    pub from: usize,
    pub to: usize,
}

// How many octets a value has, and how many octets tell it.
#[derive(Clone, Copy, Debug, PartialEq, Eq)]
pub struct Count {
    pub count: usize,
    pub told: usize,
}

// The length that three octets tell, or as many of them as it takes: definite and shortest, or none.
pub fn size_of(a: u8, b: u8, c: u8) -> Option<Count>
    ensures value { result ≡ size_of a b c }
    ensures result_bound { ((count_in result).told ≤ 3) × ((count_in result).count < 65536) }
{
    if a <= 0x7F {
        return Some(Count {
            count: a as usize,
            told: 1,
        });
    }
    if a == 0x81 {
        if 0x80 <= b {
            return Some(Count {
                count: b as usize,
                told: 2,
            });
        }
        return None;
    }
    if a == 0x82 {
        if 1 <= b {
            return Some(Count {
                count: b as usize * 256 + c as usize,
                told: 3,
            });
        }
        return None;
    }
    None
}

// 10, at the tag of the element that fails or should stand there.
pub fn refuse(at: usize) -> Result<Stretch, Refusal>
    ensures { read_of result ≡ refusal (by 10) at }
{
    Err(Refusal::at(Cause::Encoding, at))
}

// The octets from a place up to another, if they end within what holds them.
pub fn ends_within(s: &[u8], at: usize, from: usize, to: usize) -> Result<Stretch, Refusal>
    ensures { read_of result ≡ ends_within s.now at from to }
{
    if to <= s.len() {
        Ok(Stretch { from, to })
    } else {
        refuse(at)
    }
}

// The value whose length stands at a place within what was lent.
fn sized(s: &[u8], at: usize, place: usize) -> Result<Stretch, Refusal>
    requires { place < 2 ^ 63 + 2 }
    ensures { read_of result ≡ sized s.now at place (size_at s.now place) }
{
    let a = lent::octet(s, place);
    let b = lent::octet(s, place + 1);
    let c = lent::octet(s, place + 2);
    match size_of(a, b, c) {
        Some(size) => {
            let from = place + size.told;
            ends_within(s, at, from, from + size.count)
        }
        None => refuse(at),
    }
}

// The value of the element that stands at a place of what holds it, behind a tag of one octet, or of two, whatever tag that is.
pub fn behind_tag(s: &[u8], at: usize, wide: bool) -> Result<Stretch, Refusal>
    ensures { read_of result ≡ behind_tag s.now at (cond wide 2 1) }
{
    // nothing stands at the end or past it
    if s.len() <= at {
        return refuse(at);
    }
    if wide {
        sized(s, at, at + 2)
    } else {
        sized(s, at, at + 1)
    }
}

// The value of the element with a tag of one octet, or of two, that stands at a place of what holds it.
pub fn element(s: &[u8], at: usize, tag: u16) -> Result<Stretch, Refusal>
    ensures { read_of result ≡ element s.now at tag }
{
    // nothing stands at the end or past it
    if s.len() <= at {
        return refuse(at);
    }
    let first = lent::octet(s, at) as u16;
    if tag < 256 {
        if first == tag {
            sized(s, at, at + 1)
        } else {
            refuse(at)
        }
    } else {
        let second = lent::octet(s, at + 1) as u16;
        if first * 256 + second == tag {
            sized(s, at, at + 2)
        } else {
            refuse(at)
        }
    }
}

// Stages 1 and 2 of a presentation: size, and the outer walk.
#![tactic(auto)]

ghost use Rattle.std.specs.Prelude.{◌≡◌};
ghost use Rattle.refusal.specs.Outcome.{outcome_of};
ghost use Rattle.tlv.specs.Read.{outcome_in, read_of};
ghost use Rattle.outer.specs.Outer as O;
ghost use Rattle.outer.specs.Inner.Onward.{front};

use refusal::{Cause, Refusal};
use tlv::tags::is_group;
use tlv::{Stretch, tags};

// Where the contents of EF.COM and of the security object stand. The group files follow the object.
#[derive(Clone, Copy, Debug, PartialEq, Eq)]
pub struct Outer {
    pub efcom: Stretch,
    pub object: Stretch,
}

// A group file: where it starts, and where its value stands and it ends.
#[derive(Clone, Copy, Debug, PartialEq, Eq)]
pub struct File {
    pub start: usize,
    pub held: Stretch,
}

// The file that stands at a place.
pub fn file_at(w: &[u8], at: usize) -> Result<Stretch, Refusal>
    ensures { read_of result ≡ O.file_at w.now at }
{
    if is_group(lent::octet(w, at)) {
        tlv::behind_tag(w, at, false)
    } else {
        tlv::refuse(at)
    }
}

// Group tags only, every file ending within the bytes.
fn files(w: &[u8], start: usize) -> Result<(), Refusal>
    ensures { outcome_of result ≡ outcome_in (O.files w.now start) }
{
    let mut at = start;
    while at < w.len() {
        at = file_at(w, at)?.to;
    }
    Ok(())
}

// Size, then EF.COM, and the security object where that ends: all that stands before the files.
pub fn front(w: &[u8]) -> Result<Outer, Refusal>
    ensures { read_of result ≡ front w.now }
{
    if 65535 < w.len() {
        return Err(Refusal::at(Cause::Length, 0));
    }
    let efcom = tlv::element(w, 0, tags::EF_COM)?;
    let object = tlv::element(w, efcom.to, tags::SEQUENCE)?;
    Ok(Outer { efcom, object })
}

// Both stages.
pub fn walk(w: &[u8]) -> Result<Outer, Refusal>
    ensures { read_of result ≡ O.walked w.now }
{
    let parts = front(w)?;
    files(w, parts.object.to)?;
    Ok(parts)
}

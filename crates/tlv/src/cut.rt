// A stretch of lent octets: what stands in it, and tests of it, without a condition.
ghost use Rattle.std.specs.Prelude.{◌≡◌};
ghost use Rattle.refusal.specs.Outcome.{outcome_of};
ghost use Rattle.tlv.specs.Cut as C;

use crate::Stretch;
use refusal::{Cause, Refusal};

// The octets of a stretch, as a part of what was lent.
pub fn cut(s: &[u8], v: Stretch) -> &[u8]
    ensures { result.now ≡ C.cut s.now v }
{
    if v.from <= v.to {
        lent::part(s, v.from, v.to - v.from)
    } else {
        lent::part(s, v.from, 0)
    }
}

// A value of so many octets.
pub fn has_octets(n: usize, v: Stretch) -> bool
    ensures { result ≡ C.has_octets n v }
{
    if v.from <= v.to {
        v.to - v.from == n
    } else {
        false
    }
}

// Nothing follows.
pub fn end_check(s: &[u8], at: usize) -> Result<(), Refusal>
    ensures { outcome_of result ≡ C.end_check s.now at }
{
    Refusal::unless(at == s.len(), Cause::Encoding, at)
}

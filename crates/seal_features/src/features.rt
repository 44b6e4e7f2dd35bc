// The features, walked once from the left: unknown ones are passed over, feature 02 is found.
ghost use Rattle.std.specs.Prelude.{◌≡◌};
ghost use Rattle.refusal.specs.Numbers.{why_of};
ghost use Rattle.tlv.specs.Read.{read_of};
ghost use Rattle.seal_features.specs.Features as F;

use refusal::{Cause, Refusal};
use tlv::Stretch;
use tlv::cut::has_octets;

// The text of an emergency document, and what no feature has for a tag.
const TEXT: u8 = 0x02;

pub(crate) const SIGNATURE: u8 = 0xFF;

// Where feature 02 begins, 0 where there is none, and where the features end. 0 and no Option, since `seal_checks` speaks of the
// place of every seal, and no feature stands at 0.
#[derive(Clone, Copy, Debug, PartialEq, Eq)]
pub struct Features {
    pub text: usize,
    pub end: usize,
}

// A refusal of an element has another number in a seal.
pub(crate) fn numbered(taken: Result<Stretch, Refusal>, cause: Cause) -> Result<Stretch, Refusal>
    ensures { read_of result ≡ F.numbered (why_of cause) (read_of taken) }
{
    taken.map_err(|why| Refusal {
        cause,
        place: why.place,
    })
}

// Feature 02 has 48 octets and stands once; others are passed over.
fn keeps_rule(s: &[u8], at: usize, text: usize, v: Stretch) -> bool
    ensures { result ≡ F.feature_rule s.now at text v }
{
    if lent::octet(s, at) == TEXT {
        has_octets(48, v) & (text == 0)
    } else {
        true
    }
}

// The value of the feature that stands at a place, or 25 there.
fn feature_at(s: &[u8], at: usize, text: usize) -> Result<Stretch, Refusal>
    ensures { read_of result ≡ F.feature_at s.now at text }
{
    let v = numbered(tlv::behind_tag(s, at, false), Cause::SealFeature)?;
    Refusal::unless(keeps_rule(s, at, text, v), Cause::SealFeature, at)?;
    Ok(v)
}

fn is_end(s: &[u8], at: usize) -> bool
    ensures { result ≡ F.is_end s.now at }
{
    (s.len() <= at) | (lent::octet(s, at) == SIGNATURE)
}

fn text_place(s: &[u8], at: usize, text: usize) -> usize
    ensures { result ≡ F.text_place s.now at text }
{
    if lent::octet(s, at) == TEXT { at } else { text }
}

// From a place up to FF or the end.
pub fn walk(s: &[u8], start: usize) -> Result<Features, Refusal>
    ensures { read_of result ≡ F.features s.now start }
{
    let mut at = start;
    let mut text = 0;
    while !is_end(s, at) {
        let v = feature_at(s, at, text)?;
        text = text_place(s, at, text);
        at = v.to;
    }
    Ok(Features { text, end: at })
}

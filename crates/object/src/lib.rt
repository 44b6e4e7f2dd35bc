// Stage 4, the security object: the version, the algorithm, the entries and, in version 1, two strings, each from where the one
// before it ends.
#![tactic(auto)]

ghost use Rattle.std.specs.Prelude.{◌≡◌};
ghost use Rattle.refusal.specs.Outcome.{outcome_of};
ghost use Rattle.tlv.specs.Read.{read_of};
ghost use Rattle.tlv.specs.Versions.{both};
ghost use Rattle.object.specs.Object as O;
ghost use Rattle.object.specs.Inner.Seen as T;

mod entries;
pub mod strings;

use crate::entries::{Seen, entries};
use crate::strings::{Version, version_at};
use lent::alike;
use refusal::{Cause, Refusal};
use tlv::cut::{cut, has_octets};
use tlv::{Stretch, tags};

// What an object says: where the digest of each group begins, 0 where it has no entry, since `digest_for` has 0 there; and the
// version, with its strings.
#[derive(Clone, Copy, Debug, PartialEq, Eq)]
pub struct Object {
    pub digests: [usize; 17],
    pub version: Version,
}

// After all entries: a repeated number, at its integer, then fewer than two, at the list. More than sixteen always repeat one.
fn seen_check(seen: &Seen, at: usize) -> Result<(), Refusal>
    ensures { outcome_of result ≡ T.seen_check seen.now at }
{
    match seen.repeated {
        Some(place) => Err(Refusal::at(Cause::SecurityObject, place)),
        None => Refusal::unless(2 <= seen.count, Cause::SecurityObject, at),
    }
}

// The entries, then the tests on all of them, then what stands behind them.
fn from_entry_list(s: &[u8], at: usize, newer: bool) -> Result<Object, Refusal>
    ensures { read_of result ≡ T.kept (O.from_entry_list newer s.now at) }
{
    let list = tlv::element(s, at, tags::SEQUENCE)?;
    let seen = entries(lent::part(s, 0, list.to), list.from)?;
    seen_check(&seen, at)?;
    let version = version_at(s, list.to, newer)?;
    Ok(Object {
        digests: seen.digests,
        version,
    })
}

// The name of SHA-256, alone or followed by 05 00. It is compared and not walked.
fn is_sha256(s: &[u8]) -> bool
    ensures { result ≡ O.is_sha256 s.now }
{
    let alone = [
        0x06u8, 0x09, 0x60, 0x86, 0x48, 0x01, 0x65, 0x03, 0x04, 0x02, 0x01,
    ];
    let followed = [
        0x06u8, 0x09, 0x60, 0x86, 0x48, 0x01, 0x65, 0x03, 0x04, 0x02, 0x01, 0x05, 0x00,
    ];
    alike(s, &alone) | alike(s, &followed)
}

// Version integer 0 or 1.
fn is_version(s: &[u8], v: Stretch) -> bool
    ensures { result ≡ O.is_version both s.now v }
{
    let number = lent::octet(s, v.from);
    has_octets(1, v) & ((number == 0) | (number == 1))
}

fn from_version(s: &[u8], at: usize) -> Result<Object, Refusal>
    ensures { read_of result ≡ T.kept (O.from_version both s.now at) }
{
    let version = tlv::element(s, at, tags::INTEGER)?;
    Refusal::unless(is_version(s, version), Cause::SecurityObject, at)?;
    let algorithm = tlv::element(s, version.to, tags::SEQUENCE)?;
    Refusal::unless(is_sha256(cut(s, algorithm)), Cause::Algorithm, version.to)?;
    from_entry_list(s, algorithm.to, lent::octet(s, version.from) == 1)
}

// The security object whose value stands here.
pub fn read(w: &[u8], o: Stretch) -> Result<Object, Refusal>
    ensures { read_of result ≡ T.kept (O.read_object both w.now o) }
{
    from_version(lent::part(w, 0, o.to), o.from)
}

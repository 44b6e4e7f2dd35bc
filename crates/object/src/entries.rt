// The entries of a security object, walked once.
ghost use Rattle.std.specs.Prelude.{◌≡◌, ◌<◌, ◌^◌};
ghost use Rattle.tlv.specs.Read.{read_of};
ghost use Rattle.object.specs.Object as O;
ghost use Rattle.object.specs.Inner.Seen as T;

use refusal::{Cause, Refusal};
use tlv::cut::{end_check, has_octets};
use tlv::{Stretch, tags};

// An entry: its group's number, where its integer stands, and where its digest begins and it ends.
#[derive(Clone, Copy, Debug, PartialEq, Eq)]
pub(crate) struct GroupHash {
    group: usize,
    place: usize,
    digest: usize,
    end: usize,
}

// What was seen of the entries: how many, where the first repeated integer stands, and where the digest of each group begins (0
// for none).
#[derive(Clone, Copy, Debug, PartialEq, Eq)]
pub(crate) struct Seen {
    pub count: usize,
    pub repeated: Option<usize>,
    pub digests: [usize; 17],
}

// A one-octet integer 1-16.
fn is_group_number(s: &[u8], v: Stretch) -> bool
    ensures { result ≡ O.is_group_number s.now v }
{
    let number = lent::octet(s, v.from);
    has_octets(1, v) & ((1 <= number) & (number <= 16))
}

// An entry is itself a sequence: the number of a group, an octet string of 32, and nothing behind them.
fn entry_at(s: &[u8], at: usize) -> Result<GroupHash, Refusal>
    ensures { read_of result ≡ O.entry_at s.now at }
{
    let entry = tlv::element(s, at, tags::SEQUENCE)?;
    let inner = lent::part(s, 0, entry.to);
    let place = entry.from;
    let number = tlv::element(inner, place, tags::INTEGER)?;
    Refusal::unless(is_group_number(inner, number), Cause::SecurityObject, place)?;
    let digest = tlv::element(inner, number.to, tags::OCTET_STRING)?;
    Refusal::unless(has_octets(32, digest), Cause::SecurityObject, number.to)?;
    end_check(inner, digest.to)?;
    Ok(GroupHash {
        group: lent::octet(inner, number.from) as usize,
        place,
        digest: digest.from,
        end: digest.to,
    })
}

// One entry more: the first digest of a group is kept, and the first integer that repeats another.
fn count(seen: &mut Seen, entry: GroupHash)
    requires { (entry.group < 17) × (seen.old.count < 2 ^ 63) }
    ensures { seen.new ≡ T.counted seen.old entry }
{
    seen.count += 1;
    if seen.digests[entry.group] == 0 {
        seen.digests[entry.group] = entry.digest;
    } else {
        seen.repeated = seen.repeated.or(Some(entry.place));
    }
}

// Every entry, from the first on.
pub(crate) fn entries(s: &[u8], start: usize) -> Result<Seen, Refusal>
    ensures { read_of result ≡ T.tally_from s.now start T.none }
{
    let mut at = start;
    let mut seen = Seen {
        count: 0,
        repeated: None,
        digests: [0; 17],
    };
    while at < s.len() {
        let entry = entry_at(s, at)?;
        count(&mut seen, entry);
        at = entry.end;
    }
    Ok(seen)
}

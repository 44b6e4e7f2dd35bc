// Stage 5: every group file listed, lent once, with an entry, and with the digest that stands there.
ghost use Rattle.std.specs.Prelude.{◌≡◌, ◌<◌, length};
ghost use Rattle.refusal.specs.Outcome.{outcome_of, passed};
ghost use Rattle.sha256.specs.Hash.{sha256};
ghost use Rattle.tlv.specs.Read.{outcome_in};
ghost use Rattle.lent.specs.Octets as Octets;
ghost use Rattle.outer.specs.Outer as O;
ghost use Rattle.chip.specs.Inner.ByTable.{lent_from, file_by, files_by};

use lent::{alike, stands};
use outer::file_at;
use refusal::{Cause, Refusal};
use tlv::Stretch;
use tlv::cut::cut;
use tlv::tags::group_of;

// The digest is over the whole file, tag and length included.
fn is_digested<'a>(file: &'a [u8], digest: &'a [u8]) -> bool
    ensures { result ≡ Octets.alike (sha256 file.now) digest.now }
{
    let own = sha256::digest_of(file);
    alike(&own, digest)
}

// 14: unlisted, or with no place of a digest (any more). 15: another digest.
fn file_check<'a>(
    w: &'a [u8],
    tags: &'a [u8],
    at: usize,
    held: Stretch,
    tag: u8,
    place: usize,
) -> Result<(), Refusal>
    ensures { outcome_of result ≡ file_by w.now tags.now (record { start = at; held = held }) tag place }
{
    if stands(tag, tags) & (0 < place) {
        let file = cut(
            w,
            Stretch {
                from: at,
                to: held.to,
            },
        );
        let same = is_digested(file, lent::part(w, place, 32));
        return Refusal::unless(same, Cause::Digest, at);
    }
    Err(Refusal::at(Cause::Group, at))
}

// Per file, in lent order. A group's place is taken from the table with its first file.
pub(crate) fn files_check<'a>(
    w: &'a [u8],
    tags: &'a [u8],
    start: usize,
    digests: [usize; 17],
) -> Result<(), Refusal>
    requires { outcome_in (O.files w.now start) ≡ passed }
    ensures { outcome_of result ≡ files_by w.now tags.now digests (lent_from w.now start) }
{
    let mut table = digests;
    let mut at = start;
    while at < w.len() {
        let held = file_at(w, at)?;
        let tag = lent::octet(w, at);
        let group = group_of(tag) as usize;
        file_check(w, tags, at, held, tag, table[group])?;
        table[group] = 0;
        at = held.to;
    }
    Ok(())
}

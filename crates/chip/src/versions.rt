// Whether EF.COM and the security object agree on their versions.
ghost use Rattle.std.specs.Prelude.{◌≡◌, ◌&&◌};
ghost use Rattle.refusal.specs.Outcome.{outcome_of};
ghost use Rattle.lent.specs.Octets as Octets;
ghost use Rattle.tlv.specs.Cut as Cut;
ghost use Rattle.tlv.specs.Versions.{lds18};
ghost use Rattle.chip.specs.Versions as S;

use efcom::Common;
use lent::alike;
use object::strings::{Strings, Version};
use refusal::{Cause, Refusal};
use tlv::Stretch;
use tlv::cut::cut;

// Strings that are `0108` and EF.COM's Unicode version, octet by octet.
fn are_said(w: &[u8], unicode: Stretch, strings: Strings) -> bool
    ensures { result ≡ Octets.alike (Cut.cut w.now strings.lds) lds18
        && Octets.alike (Cut.cut w.now strings.unicode) (Cut.cut w.now unicode) }
{
    let named = *b"0108";
    alike(cut(w, strings.lds), &named) & alike(cut(w, strings.unicode), cut(w, unicode))
}

// `0107` goes with version 0, `0108` with version 1 and its strings.
fn agrees(w: &[u8], common: Common, version: Version) -> bool
    ensures { result ≡ S.agrees w.now common version }
{
    match version {
        Version::Zero => !common.newer,
        Version::One(strings) => common.newer & are_said(w, common.unicode, strings),
    }
}

// Else 19, at the object's start.
pub(crate) fn versions_check(
    w: &[u8],
    start: usize,
    common: Common,
    version: Version,
) -> Result<(), Refusal>
    ensures { outcome_of result ≡ S.versions_check w.now start common version }
{
    Refusal::unless(agrees(w, common, version), Cause::Versions, start)
}

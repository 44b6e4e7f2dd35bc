// Stage 3, EF.COM: the version, the Unicode version and the tag list, each from where the one before it ends.
#![tactic(auto)]

ghost use Rattle.std.specs.Prelude.{◌≡◌, ◌&&◌};
ghost use Rattle.lent.specs.Octets as Octets;
ghost use Rattle.zone.specs.Alphabet.{is_digit};
ghost use Rattle.tlv.specs.Read.{read_of};
ghost use Rattle.tlv.specs.Cut as Cut;
ghost use Rattle.tlv.specs.Versions.{both};
ghost use Rattle.efcom.specs.EfCom as C;

mod list;

use crate::list::tags_check;
use lent::alike;
use refusal::{Cause, Refusal};
use tlv::cut::{cut, end_check, has_octets};
use tlv::{Stretch, tags};
use zone::alphabet::{Test, every, is_digit};

// What EF.COM says: whether its version is `0108` and not `0107`, where the digits of the Unicode version stand, and where the
// tag list.
#[derive(Clone, Copy, Debug, PartialEq, Eq)]
pub struct Common {
    pub newer: bool,
    pub unicode: Stretch,
    pub tags: Stretch,
}

struct Digits;

impl Test for Digits {
    ghost test = { is_digit };

    fn passes(c: u8) -> bool {
        is_digit(c)
    }
}

// Six digits.
#[tactic(auto, unfolding(crate::specs::EfCom::is_unicode))]
fn is_unicode(s: &[u8], v: Stretch) -> bool
    ensures { result ≡ C.is_unicode s.now v }
{
    has_octets(6, v) & every::<Digits>(cut(s, v))
}

// Four characters, those of a version.
fn is_version(s: &[u8], v: Stretch, named: &[u8]) -> bool
    ensures { result ≡ Cut.has_octets 4 v && Octets.alike (Cut.cut s.now v) named.now }
{
    has_octets(4, v) & alike(cut(s, v), named)
}

// What stands from a place on: 11 at an element whose content is not as said.
fn from_version(s: &[u8], at: usize) -> Result<Common, Refusal>
    ensures { read_of result ≡ C.from_version both s.now at }
{
    let version = tlv::element(s, at, tags::LDS_VERSION)?;
    let older = is_version(s, version, b"0107");
    Refusal::unless(older | is_version(s, version, b"0108"), Cause::EfCom, at)?;
    let unicode = tlv::element(s, version.to, tags::UNICODE_VERSION)?;
    Refusal::unless(is_unicode(s, unicode), Cause::EfCom, version.to)?;
    let tags = tlv::element(s, unicode.to, tags::TAG_LIST)?;
    tags_check(s, tags)?;
    end_check(s, tags.to)?;
    Ok(Common {
        newer: !older,
        unicode,
        tags,
    })
}

// The EF.COM whose value stands here.
pub fn read(w: &[u8], efcom: Stretch) -> Result<Common, Refusal>
    ensures { read_of result ≡ C.read_ef_com both w.now efcom }
{
    from_version(lent::part(w, 0, efcom.to), efcom.from)
}

// What stands behind the entries of a security object: nothing in version 0, a sequence of two printable strings in version 1.
ghost use Rattle.std.specs.Prelude.{◌≡◌};
ghost use Rattle.tlv.specs.Read.{read_of};
ghost use Rattle.object.specs.Object as O;

use refusal::Refusal;
use tlv::cut::end_check;
use tlv::{Stretch, tags};

// Where the two strings stand: the LDS version and the Unicode version.
#[derive(Clone, Copy, Debug, PartialEq, Eq)]
pub struct Strings {
    pub lds: Stretch,
    pub unicode: Stretch,
}

// The object's version: 0, which has no strings, or 1. The paper's two versions, of which `agrees` has a row each.
#[derive(Clone, Copy, Debug, PartialEq, Eq)]
pub enum Version {
    Zero,
    One(Strings),
}

// Two strings in a sequence, and nothing behind them, in it or behind it.
fn sequence_at(s: &[u8], at: usize) -> Result<Strings, Refusal>
    ensures { read_of result ≡ O.sequence_at s.now at }
{
    let v = tlv::element(s, at, tags::SEQUENCE)?;
    let inner = lent::part(s, 0, v.to);
    let lds = tlv::element(inner, v.from, tags::PRINTABLE_STRING)?;
    let unicode = tlv::element(inner, lds.to, tags::PRINTABLE_STRING)?;
    end_check(inner, unicode.to)?;
    end_check(s, v.to)?;
    Ok(Strings { lds, unicode })
}

pub(crate) fn version_at(s: &[u8], at: usize, newer: bool) -> Result<Version, Refusal>
    ensures { read_of result ≡ O.version_at newer s.now at }
{
    if newer {
        let strings = sequence_at(s, at)?;
        return Ok(Version::One(strings));
    }
    end_check(s, at)?;
    Ok(Version::Zero)
}

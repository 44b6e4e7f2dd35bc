// The signature zone: FF, a length and the signature, up to the seal's end.
ghost use Rattle.std.specs.Prelude.{◌≡◌};
ghost use Rattle.tlv.specs.Read.{read_of};
ghost use Rattle.seal_features.specs.Signature.{signature_at};

use crate::features::{SIGNATURE, numbered};
use refusal::{Cause, Refusal};
use tlv::Stretch;

// 27, at FF or the end.
pub fn signature_at(s: &[u8], at: usize) -> Result<Stretch, Refusal>
    ensures { read_of result ≡ signature_at s.now at }
{
    let v = numbered(tlv::element(s, at, SIGNATURE as u16), Cause::SealSignature)?;
    Refusal::unless(v.to == s.len(), Cause::SealSignature, at)?;
    Ok(v)
}

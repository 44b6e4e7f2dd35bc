// A whole seal, into a range of its length.
ghost use Rattle.std.specs.Prelude.{◌++◌, ◌≡◌, ◌+◌, ◌≤◌, ◌<◌, ◌^◌, length};
ghost use Rattle.lent.specs.Copied.{copied_at};
ghost use Rattle.c40.specs.Field.{octets_for};
ghost use Rattle.c40.specs.Inner.Imaged.{imaged};
ghost use Rattle.seal_writing.specs.Inner.Parts.{zone_part, head_part, parts_of, seal_width};

use crate::parts::{put_back, put_front, put_zone, start_width};
use seal_header::header::Header;
use zone::form::Form;

// How many octets a seal has, with a reference of n characters.
pub(crate) fn seal_width(n: u8, signature: &[u8]) -> usize
    ensures { result ≡ seal_width n signature.now }
{
    66 + 2 * ((n as usize + 2) / 3) + (start_width(signature.len()) + signature.len())
}

// Its header, and of feature 02 the tag and the length, at the front.
fn put_head(out: &mut [u8], h: Header)
    requires { 18 + octets_for h.reference_len ≤ length out.old }
    ensures { out.new ≡ copied_at out.old 0 (head_part h) }
{
    let country = h.country;
    let signer = h.signer;
    let reference = h.reference;
    let issued = h.issued;
    let signed_on = h.signed_on;
    let n = h.reference_len as usize;
    put_front(out, h.version, country, signer, h.reference_len);
    c40::image::put_at(out, 8, lent::part(&reference, 0, n));
    put_back(out, 8 + 2 * ((n + 2) / 3), issued, signed_on);
}

// The text and the signature, to the end of the range.
fn put_rest(out: &mut [u8], at: usize, text: [u8; Form::TD2_TEXT], signature: &[u8])
    requires { (length signature.now < 2 ^ 16) × (at + 48 + length (zone_part signature.now) ≤ length out.old) }
    ensures { out.new ≡ copied_at out.old at (imaged text ++ zone_part signature.now) }
{
    c40::image::put_at(out, at, &text);
    put_zone(out, at + 48, signature);
}

// All of it.
pub(crate) fn put_seal(out: &mut [u8], h: Header, text: [u8; Form::TD2_TEXT], signature: &[u8])
    requires { (length signature.now < 2 ^ 16) × (length out.old ≡ seal_width h.reference_len signature.now) }
    ensures { out.new ≡ parts_of h text signature.now }
{
    put_head(out, h);
    let n = h.reference_len as usize;
    put_rest(out, 18 + 2 * ((n + 2) / 3), text, signature);
}

// The parts of a seal, each put at its place of a range that has room for it.
ghost use Rattle.std.specs.Prelude.{◌++◌, ◌≡◌, ◌+◌, ◌≤◌, ◌<◌, ◌^◌, length};
ghost use Rattle.lent.specs.Copied.{copied, copied_at};
ghost use Rattle.seal_fields.specs.Hex.{hexadecimal};
ghost use Rattle.seal_writing.specs.Inner.Parts.{front_part, back_part, zone_start, zone_part};

use seal_fields::day::{Day, octets_of};
use seal_fields::hex::two_of;
use zone::form::Form;

// The signer, and a number in two characters.
fn six_of(signer: [u8; 4], n: u8) -> [u8; 6]
    ensures { result ≡ signer ++ hexadecimal n }
{
    let two = two_of(n);
    let mut six = [0u8; 6];
    lent::copy(&mut six, &signer);
    six[4] = two[0];
    six[5] = two[1];
    six
}

// Eight octets at the front.
pub(crate) fn put_front(
    out: &mut [u8],
    version: u8,
    country: [u8; Form::STATE],
    signer: [u8; 4],
    n: u8,
)
    requires { 8 ≤ length out.old }
    ensures { out.new ≡ copied_at out.old 0 (front_part version country signer n) }
{
    let start = [0xDC, version];
    lent::copy_at(out, 0, &start);
    c40::image::put_at(out, 2, &country);
    let six = six_of(signer, n);
    c40::image::put_at(out, 4, &six);
}

// Ten octets.
pub(crate) fn put_back(out: &mut [u8], at: usize, issued: Day, signed: Day)
    requires { at + 10 ≤ length out.old }
    ensures { out.new ≡ copied_at out.old at (back_part issued signed) }
{
    let first = octets_of(issued);
    let second = octets_of(signed);
    let marks = [0x5E, 0x03, 0x02, 0x30];
    lent::copy_at(out, at, &first);
    lent::copy_at(out, at + 3, &second);
    lent::copy_at(out, at + 6, &marks);
}

// All octets of a range, to the front of another that has room for them. By a loop, which the compiler takes many at a time: for
// `copy_from_slice` between two lent ranges the archive would need a memmove from outside.
fn copy_all(to: &mut [u8], from: &[u8])
    requires { length from.now ≤ length to.old }
    ensures { to.new ≡ copied to.old from.now }
{
    for i in 0..from.len() {
        to[i] = from[i];
    }
}

// FF and a length of up to 65,535.
fn put_start(out: &mut [u8], at: usize, n: usize)
    requires { n < 2 ^ 16 }
    ensures { out.new ≡ copied_at out.old at (zone_start n) }
{
    if n <= 0x7F {
        let short = [0xFF, n as u8];
        lent::copy_at(out, at, &short);
        return;
    }
    if n <= 255 {
        let longer = [0xFF, 0x81, n as u8];
        lent::copy_at(out, at, &longer);
        return;
    }
    let longest = [0xFF, 0x82, (n / 256) as u8, (n % 256) as u8];
    lent::copy_at(out, at, &longest);
}

// How many octets stand before a signature of n: FF and its length.
pub(crate) fn start_width(n: usize) -> usize
    ensures { (result ≡ length (zone_start n)) × (result ≤ 4) }
{
    match n {
        0..=0x7F => 2,
        0x80..=0xFF => 3,
        _ => 4,
    }
}

// The signature zone, to the end of the range.
pub(crate) fn put_zone(out: &mut [u8], at: usize, signature: &[u8])
    requires { (length signature.now < 2 ^ 16) × (at + length (zone_part signature.now) ≤ length out.old) }
    ensures { out.new ≡ copied_at out.old at (zone_part signature.now) }
{
    let n = signature.len();
    put_start(out, at, n);
    copy_all(&mut out[at + start_width(n)..], signature);
}

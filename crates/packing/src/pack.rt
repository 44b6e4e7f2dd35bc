// Characters to codes, and units to octets.
ghost use Rattle.std.specs.Prelude.{◌≡◌, map, ◌+◌, ◌*◌, ◌/◌, ◌%◌, ◌≤◌, ◌<◌, length, set};
ghost use Rattle.lent.specs.Copied.{copied};
ghost use Rattle.zone.specs.Codes.{code_of};
ghost use Rattle.packing.specs.Packed.{four_at, four_on, packed, packed_over, packed_on_over};

use zone::codes::code_of;

// Every character becomes its code. Every octet is stored, so that the compiler takes many at a time.
pub fn to_codes(s: &mut [u8])
    ensures { s.new ≡ map code_of s.old }
{
    for c in s.iter_mut() {
        *c = code_of(*c);
    }
}

// The number that four units say.
fn four_at(s: &[u8], at: usize) -> u32
    requires { at + 4 ≤ length s.now }
    ensures { (result ≡ four_at s.now at) × (result < 134217728) }
{
    let two = u32::from(s[at]) * 64 + u32::from(s[at + 1]);
    (two * 64 + u32::from(s[at + 2])) * 64 + u32::from(s[at + 3])
}

// The number that they say ON bits on, one or none, with the first bits of the next unit behind them.
fn four_on<const ON: usize>(s: &[u8], at: usize) -> u32
    requires { (at + 4 + ON ≤ length s.now) × (ON ≤ 1) }
    ensures { result ≡ four_on ON s.now at }
{
    let four = four_at(s, at);
    if ON == 0 {
        return four;
    }
    four * 2 + u32::from(s[at + 4]) % 64 / 32
}

// Three octets of a number.
fn put_three(out: &mut [u8], at: usize, number: u32)
    requires { at + 3 ≤ length out.old }
    ensures { out.new ≡ set (set (set out.old at (number / 65536 % 256))
        (at + 1) (number / 256 % 256)) (at + 2) (number % 256) }
{
    out[at] = (number / 65536 % 256) as u8;
    out[at + 1] = (number / 256 % 256) as u8;
    out[at + 2] = (number % 256) as u8;
}

fn pack_fours<const ON: usize>(out: &mut [u8], s: &[u8], fours: usize)
    requires { (4 * fours + ON ≤ length s.now) × (3 * fours ≤ length out.old) × (ON ≤ 1) }
    ensures { out.new ≡ copied out.old (packed ON fours s.now) }
{
    for i in 0..fours {
        put_three(out, 3 * i, four_on::<ON>(s, 4 * i));
    }
}

// So many times four units as octets, at the front of a range.
pub fn pack(out: &mut [u8], s: &[u8], fours: usize)
    ensures { out.new ≡ packed_over fours out.old s.now }
{
    if fours <= s.len() / 4 && fours <= out.len() / 3 {
        pack_fours::<0>(out, s, fours);
    }
}

// The same some bits on: the first bits are left out, and more units stand behind them.
pub fn pack_on(out: &mut [u8], s: &[u8], fours: usize)
    ensures { out.new ≡ packed_on_over fours out.old s.now }
{
    if fours < s.len() / 4 && fours <= out.len() / 3 {
        pack_fours::<1>(out, s, fours);
    }
}

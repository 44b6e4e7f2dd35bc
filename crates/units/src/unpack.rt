// Characters of six bits each, from any bit of a range on: four of them are in four octets.
ghost use Rattle.std.specs.Prelude.{◌≡◌, ◌+◌, ◌-◌, ◌*◌, ◌/◌, ◌%◌, ◌≤◌, ◌<◌, length};
ghost use Rattle.lent.specs.Copied.{copied};
ghost use Rattle.cells.specs.Bits.{bits_at};
ghost use Rattle.units.specs.Unpacked.{bits_within, characters_at, unpacked_over};

use zone::codes::characters;

fn bits_of_two(s: &[u8], at: usize, width: usize) -> u32
    requires { at % 8 + width ≤ 16 }
    ensures { result ≡ bits_at s.now at width }
{
    let first = u32::from(lent::octet(s, at / 8));
    let second = u32::from(lent::octet(s, at / 8 + 1));
    let field = (first * 256 + second) >> (16 - at % 8 - width);
    field % (1 << width)
}

// The number that the bits from a place on say, where two octets hold them; else 0. Bits past the end are 0.
pub fn bits(s: &[u8], at: usize, width: usize) -> u32
    ensures { result ≡ bits_within s.now at width }
{
    if width <= 16 - at % 8 {
        bits_of_two(s, at, width)
    } else {
        0
    }
}

// The number that four octets say.
fn four_octets(s: &[u8], at: usize) -> u32
    requires { at + 4 ≤ length s.now }
    ensures { result ≡ bits_at s.now (8 * at) 32 }
{
    let two = u32::from(s[at]) * 256 + u32::from(s[at + 1]);
    (two * 256 + u32::from(s[at + 2])) * 256 + u32::from(s[at + 3])
}

// The 24 bits from a bit of an octet on.
fn bits_of_four(s: &[u8], at: usize, bit: usize) -> u32
    requires { (at + 4 ≤ length s.now) × (bit < 8) }
    ensures { (result ≡ bits_at s.now (8 * at + bit) 24) × (result < 16777216) }
{
    (four_octets(s, at) >> (8 - bit)) % 16777216
}

fn unpack_fours(to: &mut [u8], s: &[u8], at: usize, fours: usize)
    requires { (4 * fours ≤ length to.old) × (at / 8 + 3 * fours < length s.now) }
    ensures { to.new ≡ copied to.old (characters_at s.now at (4 * fours)) }
{
    let table = characters();
    for i in 0..fours {
        let number = bits_of_four(s, at / 8 + 3 * i, at % 8);
        to[4 * i] = table[(number / 262144) as usize];
        to[4 * i + 1] = table[(number / 4096 % 64) as usize];
        to[4 * i + 2] = table[(number / 64 % 64) as usize];
        to[4 * i + 3] = table[(number % 64) as usize];
    }
}

// So many times four characters from a bit on, at the front of a range.
pub fn unpack(to: &mut [u8], s: &[u8], at: usize, fours: usize)
    ensures { to.new ≡ unpacked_over at fours to.old s.now }
{
    if fours <= to.len() / 4 && at / 8 + 3 * fours < s.len() {
        unpack_fours(to, s, at, fours);
    }
}

// The image of a text, written.
ghost use Rattle.std.specs.Prelude.{◌≡◌, ◌+◌, ◌*◌, ◌/◌, ◌%◌, ◌≤◌, ◌<◌, length, set};
ghost use Rattle.std.proofs.lemmas.List.Edits.{sets};
ghost use Rattle.c40.specs.Values.{value_of};
ghost use Rattle.c40.specs.Image.{packed};
ghost use Rattle.c40.specs.Inner.Imaged.{imaged, image_put};

// The value of a character; of any other octet that of a space.
fn value_of(c: u8) -> u32
    ensures { (result ≡ value_of c) × (result ≤ 39) }
{
    match c {
        b'0'..=b'9' => (c - b'0') as u32 + 4,
        b'A'..=b'Z' => (c - b'A') as u32 + 14,
        _ => 3,
    }
}

// Three values in one number; 0 is the third where two characters are left over.
fn packed(a: u32, b: u32, c: u32) -> u32
    requires { (a ≤ 39) × (b ≤ 39) × (c ≤ 39) }
    ensures { result ≡ packed a b c }
{
    1600 * a + 40 * b + c + 1
}

// One that is left over: FE, and its code plus one.
fn one_packed(c: u8) -> u32
    ensures { result ≡ 256 * 0xFE + (c + 1) % 256 }
{
    256 * 0xFE + (c as u32 + 1) % 256
}

// A number in two octets.
fn put_pair(out: &mut [u8], n: usize, number: u32)
    requires { n + 2 ≤ length out.old }
    ensures { out.new ≡ set (set out.old n (number / 256 % 256)) (n + 1) (number % 256) }
{
    out[n] = (number / 256 % 256) as u8;
    out[n + 1] = (number % 256) as u8;
}

// The last pair, where two characters are left over or one; nothing where none is.
fn put_last(s: &[u8], out: &mut [u8], n: usize)
    requires { (length s.now < 3) × (n + length (imaged s.now) ≡ length out.old) }
    ensures { out.new ≡ sets out.old n (imaged s.now) }
{
    match s {
        [] => {}
        [a] => put_pair(out, n, one_packed(*a)),
        [a, b, ..] => put_pair(out, n, packed(value_of(*a), value_of(*b), 0)),
    }
}

fn put_pairs(s: &[u8], out: &mut [u8])
    requires { length out.old ≡ length (imaged s.now) }
    ensures { out.new ≡ imaged s.now }
{
    let mut left = s;
    let mut n = 0;
    while let [a, b, c, more @ ..] = left {
        put_pair(out, n, packed(value_of(*a), value_of(*b), value_of(*c)));
        n += 2;
        left = more;
    }
    put_last(left, out, n);
}

// The image at a place of a range. Where it has no room there, the range stays as it is.
pub fn put_at(out: &mut [u8], at: usize, s: &[u8])
    ensures { out.new ≡ image_put out.old at s.now }
{
    let wide = 2 * ((s.len() + 2) / 3);
    if at <= out.len() {
        if wide <= out.len() - at {
            put_pairs(s, &mut out[at..at + wide]);
        }
    }
}

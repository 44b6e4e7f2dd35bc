// The characters of an image, once it is known to be one.
ghost use Rattle.std.specs.Prelude.{◌≡◌, ◌+◌, ◌≤◌, ◌<◌, length};
ghost use Rattle.std.proofs.lemmas.List.Edits.{sets};
ghost use Rattle.c40.specs.Reader.{number_of, values_of, three, two, read_c40};
ghost use Rattle.c40.specs.Inner.Left.{text_of};

use crate::pair::{character_of, values_of};

fn put_three(out: &mut [u8], n: usize, x: u8, y: u8)
    requires { n + 3 ≤ length out.old }
    ensures { out.new ≡ sets out.old n (three (values_of (number_of x y))) }
{
    let v = values_of(x, y);
    out[n] = character_of(v.first);
    out[n + 1] = character_of(v.second);
    out[n + 2] = character_of(v.third);
}

fn put_two(out: &mut [u8], n: usize, x: u8, y: u8)
    requires { n + 2 ≤ length out.old }
    ensures { out.new ≡ sets out.old n (two (values_of (number_of x y))) }
{
    let v = values_of(x, y);
    out[n] = character_of(v.first);
    out[n + 1] = character_of(v.second);
}

// The last pair, of two characters or of one: how many there is room for tells. Nothing where none is left.
fn write_last(s: &[u8], out: &mut [u8], n: usize)
    requires { (n + length (text_of (read_c40 s.now)) ≡ length out.old) × (length out.old < n + 3) }
    ensures { out.new ≡ sets out.old n (text_of (read_c40 s.now)) }
{
    if let [x, y, ..] = s {
        if out.len() - n == 2 {
            put_two(out, n, *x, *y);
            return;
        }
        if out.len() - n == 1 {
            out[n] = y.saturating_sub(1);
        }
    }
}

// The characters of an image, of which there are as many as there is room for. How many pairs are of three is counted before, so
// that the compiler takes many at a time.
pub(crate) fn write(s: &[u8], out: &mut [u8])
    requires { length (text_of (read_c40 s.now)) ≡ length out.old }
    ensures { out.new ≡ text_of (read_c40 s.now) }
{
    let threes = out.len() / 3;
    for k in 0..threes {
        put_three(out, 3 * k, s[2 * k], s[2 * k + 1]);
    }
    write_last(&s[2 * threes..], out, 3 * threes);
}

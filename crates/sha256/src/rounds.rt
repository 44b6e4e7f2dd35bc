// The rounds of a block and the hash value after it: FIPS 180-4, 6.2.2, steps 2 to 4.
ghost use Rattle.std.specs.Prelude.{◌≡◌, ◌≤◌, take, drop};
ghost use Rattle.sha256.specs.Constants as C;
ghost use Rattle.sha256.specs.Hash as S;
ghost use Rattle.sha256.specs.Inner.Ring as R;

use super::{constants, schedule};
use sha256_words::words;

// The working variables.
#[derive(Clone, Copy)]
pub struct Working {
    pub a: u32,
    pub b: u32,
    pub c: u32,
    pub d: u32,
    pub e: u32,
    pub f: u32,
    pub g: u32,
    pub h: u32,
}

// Step 2.
fn started(hash: [u32; 8]) -> Working
    ensures { result ≡ S.started hash }
{
    let [a, b, c, d, e, f, g, h] = hash;
    Working {
        a,
        b,
        c,
        d,
        e,
        f,
        g,
        h,
    }
}

fn t1(k: u32, w: u32, s: Working) -> u32
    ensures { result ≡ S.T1 k w s }
{
    let x = words::add(s.h, words::upper_sigma1(s.e));
    let y = words::add(x, words::ch(s.e, s.f, s.g));
    words::add(words::add(y, k), w)
}

fn t2(s: Working) -> u32
    ensures { result ≡ S.T2 s }
{
    words::add(words::upper_sigma0(s.a), words::maj(s.a, s.b, s.c))
}

// One t of step 3.
fn round(k: u32, w: u32, s: Working) -> Working
    ensures { result ≡ S.round k w s }
{
    let x = t1(k, w, s);
    let y = t2(s);
    Working {
        a: words::add(x, y),
        b: s.a,
        c: s.b,
        d: s.c,
        e: words::add(s.d, x),
        f: s.e,
        g: s.f,
        h: s.g,
    }
}

// Eight of them on the ring from a place on: then each working variable is back in its place, so that no word was moved from one
// to the next.
fn eight(k: &[u32; 8], w: &[u32; 16], at: usize, start: Working) -> Working
    requires { at ≤ 8 }
    ensures { result ≡ S.rounds k.now (take 8 (drop at w.now)) start }
{
    let mut s = start;
    for i in 0..8 {
        s = round(k[i], w[at + i], s);
    }
    s
}

// The same, and beside each the word sixteen after its own, which takes its place: so neither waits for the other.
fn eight_rolling(k: &[u32; 8], w: &mut [u32; 16], at: usize, start: Working) -> Working
    requires { at ≤ 8 }
    ensures { (result ≡ S.rounds k.now (take 8 (drop at w.old)) start)
        × (w.new ≡ R.rolled 8 at w.old) }
{
    let mut s = start;
    for i in 0..8 {
        s = round(k[i], w[at + i], s);
        w[at + i] = schedule::follower(w, at + i);
    }
    s
}

// Step 3, from the working variables of step 2: the ring goes round for as long as a word is missing. Its halves have rounds of
// their own, so that each place is a constant.
fn rounds(block: &[u8; 64], start: Working) -> Working
    ensures { result ≡ S.rounds C.K (S.schedule block.now) start }
{
    let mut w = schedule::first_words(block);
    let mut s = start;
    for turn in 0..3 {
        let half = eight_rolling(&constants::eight_constants(2 * turn), &mut w, 0, s);
        s = eight_rolling(&constants::eight_constants(2 * turn + 1), &mut w, 8, half);
    }
    for eighth in 6..8 {
        s = eight(&constants::eight_constants(eighth), &w, 8 * eighth - 48, s);
    }
    s
}

// Step 4.
fn added(s: Working, hash: [u32; 8]) -> [u32; 8]
    ensures { result ≡ S.added s hash }
{
    [
        words::add(s.a, hash[0]),
        words::add(s.b, hash[1]),
        words::add(s.c, hash[2]),
        words::add(s.d, hash[3]),
        words::add(s.e, hash[4]),
        words::add(s.f, hash[5]),
        words::add(s.g, hash[6]),
        words::add(s.h, hash[7]),
    ]
}

// The hash value after a block.
pub(crate) fn compress(hash: [u32; 8], block: &[u8; 64]) -> [u32; 8]
    ensures { result ≡ S.compressed hash block.now }
{
    let s = rounds(block, started(hash));
    added(s, hash)
}

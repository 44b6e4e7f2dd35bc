// The words of a block's schedule, in a ring of sixteen: FIPS 180-4, 6.2.2, step 1. The rounds ask for them one after the other.
ghost use Rattle.std.specs.Prelude.{◌≡◌, ◌<◌};
ghost use Rattle.sha256.specs.Parsing as Q;
ghost use Rattle.sha256.specs.Hash as S;
ghost use Rattle.sha256.specs.Inner.Ring as R;

use super::octets;
use sha256_words::words;

// The word sixteen after the one at place i: of the words 2, 7, 15 and 16 before it.
pub(crate) fn follower(w: &[u32; 16], i: usize) -> u32
    requires { i < 16 }
    ensures { result ≡ R.follower i w.now }
{
    let x = words::add(words::lower_sigma1(w[(i + 14) % 16]), w[(i + 9) % 16]);
    words::add(words::add(x, words::lower_sigma0(w[(i + 1) % 16])), w[i])
}

// W_0 to W_15 of a block.
pub(crate) fn first_words(block: &[u8; 64]) -> [u32; 16]
    ensures { result ≡ S.up_to (Q.word block.now) 16 }
{
    let mut w = [0u32; 16];
    for t in 0..16 {
        w[t] = octets::word(block, t);
    }
    w
}

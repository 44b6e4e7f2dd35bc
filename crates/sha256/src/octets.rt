// Octets and words, the most significant octet first: FIPS 180-4, 3.1 and 5.2.1.
ghost use Rattle.std.specs.Prelude.{◌≡◌, ◌+◌, ◌<◌, ◌≤◌, length};
ghost use Rattle.std.proofs.lemmas.List.Edits.{sets};
ghost use Rattle.sha256.specs.Padding as P;
ghost use Rattle.sha256.specs.Parsing as Q;

// The word M_t of a block.
pub(crate) fn word(block: &[u8; 64], t: usize) -> u32
    requires { t < 16 }
    ensures { result ≡ Q.word block.now t }
{
    let i = 4 * t;
    u32::from_be_bytes([block[i], block[i + 1], block[i + 2], block[i + 3]])
}

// Four octets of the range become those of a word.
pub(crate) fn put(out: &mut [u8], at: usize, x: u32)
    requires { at + 4 ≤ length out.old }
    ensures { out.new ≡ sets out.old at (P.octets 4 x) }
{
    out[at..at + 4].copy_from_slice(&x.to_be_bytes());
}

// The eight words of a hash value, joined.
pub(crate) fn joined(hash: [u32; 8]) -> [u8; 32]
    ensures { result ≡ Q.joined hash }
{
    let mut out = [0u8; 32];
    for i in 0..8 {
        put(&mut out, 4 * i, hash[i]);
    }
    out
}

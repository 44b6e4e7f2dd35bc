// A message block by block, the padded end in a buffer of one block: FIPS 180-4, 5.1.1 and 6.2.2.
ghost use Rattle.std.specs.Prelude.{◌≡◌, ◌∷◌, ◌++◌, ◌-◌, ◌*◌, ◌%◌, ◌<◌, length, replicate, take};
ghost use Rattle.sha256.specs.Constants as C;
ghost use Rattle.sha256.specs.Padding as P;
ghost use Rattle.sha256.specs.Hash as S;

use super::{constants, octets, rounds};

// The message's last octets, then the bit "1" and zeros to the block's end.
fn marked(rest: &[u8]) -> [u8; 64]
    requires { length rest.now < 64 }
    ensures { result ≡ rest.now ++ (0x80 ∷ replicate (63 - length rest.now) 0) }
{
    let mut block = [0u8; 64];
    lent::copy(&mut block, rest);
    block[rest.len()] = 0x80;
    block
}

// The block with the length in bits, of so many octets, as its last 64 bits.
fn sized(start: [u8; 64], n: usize) -> [u8; 64]
    ensures { result ≡ take 56 start ++ P.octets 8 (8 * n) }
{
    let mut block = start;
    octets::put(&mut block, 56, ((n >> 29) & 0xffff_ffff) as u32);
    octets::put(&mut block, 60, ((n << 3) & 0xffff_ffff) as u32);
    block
}

// The hash value after a message of n octets, of which those past the last whole block are left, and its padding.
fn finish(hash: [u32; 8], rest: &[u8], n: usize) -> [u32; 8]
    requires { n % 64 ≡ length rest.now }
    ensures { result ≡ S.chained hash (rest.now ++ P.padding n) }
{
    let block = marked(rest);
    if rest.len() < 56 {
        let last = sized(block, n);
        return rounds::compress(hash, &last);
    }
    let next = rounds::compress(hash, &block);
    let last = sized([0u8; 64], n);
    rounds::compress(next, &last)
}

// The hash value of a message.
pub(crate) fn hash(message: &[u8]) -> [u32; 8]
    ensures { result ≡ S.chained C.H0 (P.padded message.now) }
{
    let (blocks, rest) = message.as_chunks::<64>();
    let mut hash = constants::initial_hash();
    for block in blocks {
        let next = rounds::compress(hash, block);
        hash = next;
    }
    finish(hash, rest, message.len())
}

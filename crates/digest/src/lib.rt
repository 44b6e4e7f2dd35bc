// The digest as document 01 has it: of at most 65,535 octets, into a lent range.
#![tactic(auto)]

ghost use Rattle.digest.specs.Answer.{Digests};

use refusal::{Cause, Refusal};
use sha256::digest_of;

// 1: an input that is too long.
const TOO_LONG: Refusal = Refusal {
    cause: Cause::Length,
    place: 0,
};

// The digest of at most 65,535 octets, written to the first 32 octets of the output.
pub fn digest(input: &[u8], out: &mut [u8]) -> Result<usize, Refusal>
    ensures { Digests input.now out.old out.new result }
{
    if 65535 < input.len() {
        return Err(TOO_LONG);
    }
    if out.len() < 32 {
        return Err(Refusal::TOO_SHORT);
    }
    let octets = digest_of(input);
    lent::copy(out, &octets);
    Ok(32)
}

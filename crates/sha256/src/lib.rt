// SHA-256 of FIPS 180-4.
#![tactic(auto)]

ghost use Rattle.std.specs.Prelude.{◌≡◌};
ghost use Rattle.sha256.specs.Hash.{sha256};

mod constants;
mod message;
mod octets;
mod rounds;
mod schedule;

// The digest of any octets, by value.
pub fn digest_of(input: &[u8]) -> [u8; 32]
    ensures { result ≡ sha256 input.now }
{
    let hash = message::hash(input);
    octets::joined(hash)
}

// The calls that a C host makes to read seals and to write them, exported by `lamphudet_seals_c`. They decide nothing: they hand
// the lent ranges on and tell the answer in numbers. What was lent for reading is octets, as in `lamphudet`.
#![tactic(auto)]

ghost use Rattle.std.specs.Prelude.{◌≡◌};
ghost use Rattle.zone.specs.Octets.{AreOctets};
ghost use Rattle.version.specs.Version.{version_number};
ghost use Rattle.lamphudet_seals.specs.Answer.{read_seal_in_c, read_seal_out};
ghost use Rattle.lamphudet_seals.specs.Given.{written_out, write_seal_in_c};

use crate::answer::seal_in_c;
use crate::given::write_one;
use crate::received::{HeaderInC, SealInC};
use border::received::AnswerInC;

mod answer;
mod given;
pub mod received;

// A seal is read, and its record entered under a house.
pub fn lamphudet_read_seal(house: u32, seal: &[u8], entry: &mut [u8]) -> SealInC
    ensures value { result ≡ read_seal_in_c house seal.now entry.old }
    ensures after { entry.new ≡ read_seal_out house seal.now entry.old }
    ensures are_octets { AreOctets seal.now }
{
    match seal::read::read(seal) {
        Ok(said) => {
            let written = entry::enter::enter(Ok(said.kept), house, entry);
            seal_in_c(written, said.header, said.signature)
        }
        Err(why) => SealInC::from(why),
    }
}

// The seal of one entry's record, of a header and a signature.
pub fn lamphudet_write_seal(
    entry: &[u8],
    header: HeaderInC,
    signature: &[u8],
    seal: &mut [u8],
) -> AnswerInC
    ensures value { result ≡ write_seal_in_c entry.now header signature.now seal.old }
    ensures seal_after { seal.new ≡ written_out entry.now header signature.now seal.old }
    ensures are_octets { AreOctets entry.now × AreOctets signature.now }
{
    let written = write_one(entry, header, signature, seal);
    AnswerInC::from(written)
}

// The version of this library, by a name of its own: both libraries may be linked into one program.
pub fn lamphudet_seals_version() -> u32
    ensures { result ≡ version_number }
{
    version::number()
}

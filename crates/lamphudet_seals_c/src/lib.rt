// The calls of `lamphudet_seals` as C makes them: each is exported under its name, hands on what it was lent, and promises the
// same.
#![tactic(auto)]

ghost use Rattle.std.specs.Prelude.{◌≡◌};
ghost use Rattle.zone.specs.Octets.{AreOctets};
ghost use Rattle.version.specs.Version.{version_number};
ghost use Rattle.lamphudet_seals.specs.Answer.{read_seal_in_c, read_seal_out};
ghost use Rattle.lamphudet_seals.specs.Given.{written_out, write_seal_in_c};

use border::received::AnswerInC;
use lamphudet_seals::received::{HeaderInC, SealInC};

// A seal is read, and its record entered under a house.
#[unsafe(no_mangle)]
pub extern "C" fn lamphudet_read_seal(house: u32, seal: &[u8], entry: &mut [u8]) -> SealInC
    ensures value { result ≡ read_seal_in_c house seal.now entry.old }
    ensures after { entry.new ≡ read_seal_out house seal.now entry.old }
    ensures are_octets { AreOctets seal.now }
{
    lamphudet_seals::lamphudet_read_seal(house, seal, entry)
}

// The seal of one entry's record, of a header and a signature.
#[unsafe(no_mangle)]
pub extern "C" fn lamphudet_write_seal(
    entry: &[u8],
    header: HeaderInC,
    signature: &[u8],
    seal: &mut [u8],
) -> AnswerInC
    ensures value { result ≡ write_seal_in_c entry.now header signature.now seal.old }
    ensures seal_after { seal.new ≡ written_out entry.now header signature.now seal.old }
    ensures are_octets { AreOctets entry.now × AreOctets signature.now }
{
    lamphudet_seals::lamphudet_write_seal(entry, header, signature, seal)
}

// The version of this library, by a name of its own: both libraries may be linked into one program.
#[unsafe(no_mangle)]
pub extern "C" fn lamphudet_seals_version() -> u32
    ensures { result ≡ version_number }
{
    lamphudet_seals::lamphudet_seals_version()
}

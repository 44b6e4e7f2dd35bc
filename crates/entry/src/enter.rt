// What was read, entered under a house.
ghost use Rattle.std.specs.Prelude.{◌≡◌};
ghost use Rattle.std.specs.Result.{result_unwrap_or};
ghost use Rattle.refusal.specs.Length.{length_of};
ghost use Rattle.refusal.specs.Outcome.{outcome_of};
ghost use Rattle.zone.specs.Record.{blank};
ghost use Rattle.entry.specs.Entered.{entered_answer, entered_out};

use crate::write::write;
use refusal::Refusal;
use zone::record::Record;

// What a reader passed is entered; its refusals are handed on.
pub fn enter(read: Result<Record, Refusal>, house: u32, out: &mut [u8]) -> Result<usize, Refusal>
    ensures result_value { length_of result ≡ entered_answer (outcome_of read) house (result_unwrap_or read blank) out.old }
    ensures out_after { out.new ≡ entered_out (outcome_of read) house (result_unwrap_or read blank) out.old }
{
    write(house, read?, out)
}

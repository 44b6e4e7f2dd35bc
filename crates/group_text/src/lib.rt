// The text of group 1, and nothing else beside it: a part of stage 6.
#![tactic(auto)]

ghost use Rattle.std.specs.Prelude.{◌≡◌};
ghost use Rattle.tlv.specs.Read.{read_of};
ghost use Rattle.group_text.specs.Text.{text_at};

use refusal::Refusal;
use text::read::read;
use tlv::cut::{cut, end_check};
use tlv::tags;
use zone::form::Source;
use zone::record::Record;

// 5F1F and the text, exactly filling what holds them; then the text's refusals, which stand where the text does.
pub fn text_at(s: &[u8], at: usize) -> Result<Record, Refusal>
    ensures { read_of result ≡ text_at s.now at }
{
    let held = tlv::element(s, at, tags::TEXT)?;
    end_check(s, held.to)?;
    match read(Source::GroupOne, cut(s, held)) {
        Ok(kept) => Ok(kept),
        Err(own) => Err(Refusal::at(own.cause, held.from + own.place)),
    }
}

// Group 11, additional personal details: the list of tags, and the elements that it names.
#![tactic(auto)]

ghost use Rattle.std.specs.Prelude.{◌≡◌};
ghost use Rattle.tlv.specs.Read.{read_of};
ghost use Rattle.details.specs.Details.{read_detail};

mod element;
mod list;
mod named;

use refusal::{Cause, Refusal};
use tlv::Stretch;
use tlv::cut::{cut, end_check};
use tlv::tags::TAG_LIST;

const GROUP: u16 = 0x6B;

// The value of the element that is asked for, by the tag that the list names it by; from 0 to 0 where there is none. All of 10,
// then 20 of the list, then 20 of the elements.
pub fn read(s: &[u8], asked: u32) -> Result<Stretch, Refusal>
    ensures { read_of result ≡ read_detail s.now asked }
{
    let v = tlv::element(s, 0, GROUP)?;
    let inner = lent::part(s, 0, v.to);
    let list = tlv::element(inner, v.from, TAG_LIST)?;
    let tags = cut(s, list);
    element::all(inner, list.to)?;
    end_check(s, v.to)?;
    Refusal::unless(list::is_list(tags), Cause::Details, v.from)?;
    named::agree(inner, tags, list.to, s.len())?;
    Ok(named::value_for(inner, tags, list.to, asked))
}

// The inside of a group's file: every octet belongs to one element, and the templates are as many as their count says.
#![tactic(auto)]

ghost use Rattle.std.specs.Prelude.{◌≡◌};
ghost use Rattle.tlv.specs.Read.{read_of};
ghost use Rattle.inside.specs.Inside.{look_inside};
ghost use Rattle.inside.specs.Inner.Behind.{elements_in};

mod templates;

use refusal::{Cause, Refusal};
use tlv::Stretch;
use tlv::cut::end_check;
use tlv::tags::group_of;

// How many elements a file has, itself among them. It is itself one level of the eight.
fn elements_in(s: &[u8], v: Stretch, group: u8) -> Result<usize, Refusal>
    ensures { read_of result ≡ elements_in group s.now v }
{
    if group == 13 {
        return Ok(1);
    }
    let held = tree::list(lent::part(s, 0, v.to), v.from, 7)?;
    Ok(held + 1)
}

// How many elements a group's file has, itself among them, or why it is not whole.
pub fn look(s: &[u8]) -> Result<usize, Refusal>
    ensures { read_of result ≡ look_inside s.now }
{
    let group = group_of(lent::octet(s, 0));
    if group == 0 {
        return Err(Refusal::at(Cause::Encoding, 0));
    }
    let v = tlv::behind_tag(s, 0, false)?;
    let elements = elements_in(s, v, group)?;
    end_check(s, v.to)?;
    templates::count_check(s, v.from, group)?;
    Ok(elements)
}

// The head of an element: its tag, its length, and that its value ends within what holds it.
ghost use Rattle.std.specs.Prelude.{◌≡◌};
ghost use Rattle.tlv.specs.Read.{read_of};
ghost use Rattle.tree.specs.Reading.{here};

use refusal::Refusal;
use tlv::Stretch;

// The value of the element that stands at a place. Most have a tag of one octet and a length of one, and are told here.
pub(crate) fn head(s: &[u8], at: usize) -> Result<Stretch, Refusal>
    ensures { read_of result ≡ here s.now at }
{
    if s.len() <= at {
        return tlv::refuse(at);
    }
    let first = lent::octet(s, at);
    let second = lent::octet(s, at + 1);
    if first % 32 == 31 {
        if second <= 0x7F {
            return tlv::behind_tag(s, at, true);
        }
        return tlv::refuse(at);
    }
    if second <= 0x7F {
        return tlv::ends_within(s, at, at + 2, at + 2 + second as usize);
    }
    tlv::behind_tag(s, at, false)
}

// The entry that stands at a place of a list, behind another.
ghost use Rattle.std.specs.Prelude.{◌≡◌};
ghost use Rattle.nightly.specs.Key.{key_at};
ghost use Rattle.tlv.specs.Read.{read_of};
ghost use Rattle.nightly.specs.List.{entry_at};

use crate::key::is_below;
use refusal::{Cause, Refusal};

// Where an entry of a list begins and ends, and whose it is.
#[derive(Clone, Copy)]
pub struct Place {
    pub start: usize,
    pub end: usize,
    pub house: u32,
}

// The octets of a key.
const KEY: usize = 30;

// 18, then 23 where the key is not above the one that stands at a place before. At the end of the list stands none, which is
// below every key.
pub(crate) fn entry_at(list: &[u8], before: usize, at: usize) -> Result<Place, Refusal>
    ensures { read_of result ≡ entry_at list.now (key_at list.now before) at }
{
    match runs::run::next(list, at)? {
        Some(standing) => {
            if is_below(lent::part(list, before, KEY), lent::part(list, at, KEY)) {
                Ok(Place {
                    start: at,
                    end: standing.next,
                    house: standing.house,
                })
            } else {
                Err(Refusal::at(Cause::Order, at))
            }
        }
        None => Err(Refusal::at(Cause::Entry, at)),
    }
}

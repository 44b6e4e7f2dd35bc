// One pass over a list: how many entries it has, and where those of a house stand.
ghost use Rattle.std.specs.Prelude.{◌≡◌};
ghost use Rattle.tlv.specs.Read.{read_of};
ghost use Rattle.nightly.specs.Inner.Seen.{grown, walked};

use crate::place::{Place, entry_at};
use refusal::Refusal;
use tlv::Stretch;

#[derive(Clone, Copy)]
pub struct Seen {
    pub entries: usize,
    pub own: Stretch,
}

// What was seen of a house grows by an entry that is its own. No entry ends at 0: there nothing was seen yet.
fn grown(own: Stretch, place: Place, house: u32) -> Stretch
    ensures { result ≡ grown house own place }
{
    if place.house == house {
        let from = if own.to == 0 { place.start } else { own.from };
        Stretch {
            from,
            to: place.end,
        }
    } else {
        own
    }
}

pub(crate) fn walk(list: &[u8], house: u32) -> Result<Seen, Refusal>
    ensures { read_of result ≡ walked list.now house }
{
    let mut own = Stretch { from: 0, to: 0 };
    let mut entries = 0;
    let mut before = list.len();
    let mut at = 0;
    while at < list.len() {
        let place = entry_at(list, before, at)?;
        own = grown(own, place, house);
        entries += 1;
        before = at;
        at = place.end;
    }
    Ok(Seen { entries, own })
}

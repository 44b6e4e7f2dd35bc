// Stage 6: group 1 holds the text and nothing else.
ghost use Rattle.std.specs.Prelude.{◌≡◌};
ghost use Rattle.refusal.specs.Outcome.{passed};
ghost use Rattle.tlv.specs.Read.{outcome_in, read_of};
ghost use Rattle.outer.specs.Outer as O;
ghost use Rattle.chip.specs.Inner.ByTable.{lent_from};
ghost use Rattle.chip.specs.Presentation.{group_one};

use crate::group_file::first_file;
use group_text::text_at;
use refusal::Refusal;
use zone::record::Record;

// The first file of group 1, or 14 at the presentation's length.
pub(crate) fn group_one(w: &[u8], start: usize) -> Result<Record, Refusal>
    requires { outcome_in (O.files w.now start) ≡ passed }
    ensures { read_of result ≡ group_one w.now (lent_from w.now start) }
{
    let file = first_file(w, start, 1)?;
    text_at(lent::part(w, 0, file.held.to), file.held.from)
}

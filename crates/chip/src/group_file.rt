// The file of a group, among the files that were walked.
ghost use Rattle.std.specs.Prelude.{◌≡◌};
ghost use Rattle.refusal.specs.Outcome.{passed};
ghost use Rattle.tlv.specs.Read.{outcome_in, read_of};
ghost use Rattle.tlv.specs.Cut as C;
ghost use Rattle.outer.specs.Outer as O;
ghost use Rattle.chip.specs.Inner.ByTable.{lent_from};
ghost use Rattle.chip.specs.Presentation.{first_file, group_stretch};
ghost use Rattle.chip.specs.Inner.Found.{or_found};

use outer::{File, file_at, front};
use refusal::{Cause, Refusal};
use tlv::Stretch;
use tlv::cut::cut;
use tlv::tags::group_of;

// The first file with that group's tag, or 14 at the presentation's length.
pub(crate) fn first_file(w: &[u8], start: usize, group: u32) -> Result<File, Refusal>
    requires { outcome_in (O.files w.now start) ≡ passed }
    ensures { read_of result ≡ first_file w.now group (lent_from w.now start) }
{
    let mut at = start;
    while at < w.len() {
        let held = file_at(w, at)?;
        if group_of(lent::octet(w, at)) as u32 == group {
            return Ok(File { start: at, held });
        }
        at = held.to;
    }
    Err(Refusal::at(Cause::Group, w.len()))
}

// The whole first file with that group's tag, tag and length included, of the files from a place on: empty where there is none or
// one of them is refused. What was found is kept while the others are walked, so that they are walked once.
fn group_from(w: &[u8], start: usize, group: u32) -> Stretch
    ensures { result ≡ or_found w.now group (record { from = 0; to = 0 }) (O.files w.now start) }
{
    let mut found = Stretch { from: 0, to: 0 };
    let mut at = start;
    while at < w.len() {
        match file_at(w, at) {
            Ok(held) => {
                let tag = lent::octet(w, at);
                let own = group_of(tag) as u32;
                if (found.to == 0) & (own == group) {
                    found = Stretch {
                        from: at,
                        to: held.to,
                    };
                }
                at = held.to;
            }
            Err(_) => {
                return Stretch { from: 0, to: 0 };
            }
        }
    }
    found
}

// Where the file of a group stands in a presentation: empty where stage 1 or 2 fails, no such file is lent, or the number is
// no group's.
pub fn group_stretch(w: &[u8], group: u32) -> Stretch
    ensures { result ≡ group_stretch w.now group }
{
    match front(w) {
        Ok(parts) => group_from(w, parts.object.to, group),
        Err(_) => Stretch { from: 0, to: 0 },
    }
}

// The file itself, as a part of the presentation.
pub fn group_file(w: &[u8], group: u32) -> &[u8]
    ensures { result.now ≡ C.cut w.now (group_stretch w.now group) }
{
    let stretch = group_stretch(w, group);
    cut(w, stretch)
}

// A presentation read, stages in number order: what an earlier stage refuses, no later one looks at.
ghost use Rattle.std.specs.Prelude.{◌≡◌};
ghost use Rattle.text.specs.Read.{answer_of};
ghost use Rattle.chip.specs.Presentation.{read_presentation};

use crate::files::files_check;
use crate::group_one::group_one;
use crate::versions::versions_check;
use outer::walk;
use refusal::Refusal;
use tlv::cut::cut;
use zone::record::Record;

// Any octets at all are read as a presentation, or refused with cause and place.
pub fn read(w: &[u8]) -> Result<Record, Refusal>
    ensures { answer_of result ≡ read_presentation w.now }
{
    let parts = walk(w)?;
    let common = efcom::read(w, parts.efcom)?;
    let object = object::read(w, parts.object)?;
    versions_check(w, parts.efcom.to, common, object.version)?;
    let start = parts.object.to;
    files_check(w, cut(w, common.tags), start, object.digests)?;
    group_one(w, start)
}

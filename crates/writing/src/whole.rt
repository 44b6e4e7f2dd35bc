// A whole text, into a range of its length.
ghost use Rattle.std.specs.Prelude.{◌≡◌, ◌≤◌};
ghost use Rattle.zone.specs.Rooms.{number_room};
ghost use Rattle.writing.specs.Inner.Puts.{put_all};

use crate::number::put_number;
use crate::parts::{put_dates, put_last, put_opening, put_own, put_person};
use zone::alphabet::FILLER;
use zone::record::Record;

pub(crate) fn put_all(text: &mut [u8], r: Record)
    requires { r.number_len ≤ number_room }
    ensures { text.new ≡ put_all r text.old }
{
    lent::fill(text, FILLER);
    put_opening(text, r);
    put_number(text, r);
    put_own(text, r);
    put_dates(text, r);
    put_person(text, r);
    put_last(text, r);
}

// A field of C40 at a place of a seal, of as many characters as there is room for.
ghost use Rattle.c40.specs.Field.{ReadsField};

use crate::measure::measured;
use crate::write::write;

// Whether the image of exactly so many characters stands there. Then they are written, else nothing is.
pub fn field_at(s: &[u8], at: usize, out: &mut [u8]) -> bool
    ensures { ReadsField s.now at out.old out.new result }
{
    let room = out.len();
    let image = lent::part(s, at, 2 * ((room + 2) / 3));
    if measured(image, room) == Some(room) {
        write(image, out);
        return true;
    }
    false
}

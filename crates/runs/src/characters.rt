// What the bits of an entry stand for: a sex, and the longer fields of characters.
ghost use Rattle.std.specs.Prelude.{◌≡◌, take, drop};
ghost use Rattle.zone.specs.Record.{padded};
ghost use Rattle.zone.specs.Rooms.{number_room, name_room, own_room};
ghost use Rattle.entry.specs.Codes.{sex_by};

use zone::alphabet::FILLER;
use zone::form::Form;
use zone::taken::padded;

// 0 for 3: no sex, so that no sound record holds it.
pub(crate) fn sex_by(code: u32) -> u8
    ensures { result ≡ sex_by code }
{
    match code {
        0 => FILLER,
        1 => b'F',
        2 => b'M',
        _ => 0,
    }
}

// The number, the name and the issuer's own data of a record, from its characters in their units.
pub(crate) fn number_at(units: &[u8], at: usize) -> [u8; Form::NUMBER]
    ensures { result ≡ padded number_room (take number_room (drop at units.now)) }
{
    padded(lent::part(units, at, Form::NUMBER))
}

pub(crate) fn name_at(units: &[u8], at: usize) -> [u8; Form::NAME]
    ensures { result ≡ padded name_room (take name_room (drop at units.now)) }
{
    padded(lent::part(units, at, Form::NAME))
}

pub(crate) fn own_at(units: &[u8], at: usize, n: usize) -> [u8; Form::OWN]
    ensures { result ≡ padded own_room (take n (drop at units.now)) }
{
    padded(lent::part(units, at, n))
}

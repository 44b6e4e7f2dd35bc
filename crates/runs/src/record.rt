// The record that an entry says, with the lengths of data and name and its size.
ghost use Rattle.std.specs.Prelude.{◌≡◌, true, ◌+◌, ◌<◌, length};
ghost use Rattle.cells.specs.Bits.{bits_at};
ghost use Rattle.runs.specs.Inner.Units as U;
ghost use Rattle.runs.specs.Run as R;

use crate::{characters, places as room};
use entry::places;
use units::unpack::{bits, unpack};
use zone::alphabet::FILLER;
use zone::form::Form;
use zone::record::{Record, trimmed_length};
use zone::taken;

pub(crate) fn own_length(s: &[u8]) -> usize
    ensures { (result ≡ U.own_length s.now) × (result < 32) }
{
    bits(s, places::OWN_LENGTH, places::OWN_LENGTH_BITS) as usize
}

// It stands behind data of m characters.
pub(crate) fn name_length(s: &[u8], m: usize) -> usize
    requires { m < 32 }
    ensures { (result ≡ bits_at s.now (U.name_at m) 6) × (result < 64) }
{
    bits(
        s,
        places::OWN + places::CHARACTER * m,
        places::NAME_LENGTH_BITS,
    ) as usize
}

// The octets of an entry with n characters of data and name.
pub(crate) fn size(n: usize) -> usize
    requires { n < 95 }
    ensures { (result ≡ U.size_by n) × (result < 128) }
{
    (places::BARE + places::CHARACTER * n + 7) / 8
}

// Not cut off, and the spare bits zero. Data and name have m and n characters.
pub(crate) fn is_whole(s: &[u8], m: usize, n: usize) -> bool
    requires { U.Told s.now m n }
    ensures { result ≡ R.is_whole s.now }
{
    let end = places::BARE + places::CHARACTER * (m + n);
    (size(m + n) <= s.len()) & (bits(s, end, 8 * size(m + n) - end) == 0)
}

// The characters of an entry, each at its unit, into a range that is lent: by value they would be copied one by one. Its octets
// stand in another, with zeros behind them.
fn unpack_units(units: &mut [u8], octets: &[u8], n: usize)
    requires { (n < 95) × (length units.old ≡ U.all_units) × (length octets.now ≡ U.all_octets) }
    ensures { units.new ≡ U.units_over units.old octets.now n }
{
    unpack(units, octets, 0, places::FRONT_FOURS);
    unpack(
        &mut units[places::FRONT_UNITS..],
        octets,
        room::REST,
        (n + 5) / 4,
    );
}

fn read_units(units: &mut [u8], s: &[u8], n: usize)
    requires { (n < 95) × (length units.old ≡ U.all_units) }
    ensures { units.new ≡ U.units_over units.old (U.held s.now n) n }
{
    let mut octets = [0; room::OCTETS];
    lent::copy(&mut octets, lent::part(s, 0, size(n)));
    unpack_units(units, &octets, n);
}

// The record that the bits say, where they are whole.
pub(crate) fn record_in(form: Form, s: &[u8], m: usize, n: usize) -> Record
    requires { U.Told s.now m n × (R.is_whole s.now ≡ true) }
    ensures { result ≡ R.record_in form s.now }
{
    let mut units = [FILLER; room::UNITS];
    read_units(&mut units, s, m + n);
    let code = taken::code_at(&units, places::CODE_UNIT);
    let state = taken::state_at(&units, places::STATE_UNIT);
    let number = characters::number_at(&units, places::NUMBER_UNIT);
    let number_len = trimmed_length(lent::part(&units, places::NUMBER_UNIT, Form::NUMBER));
    let nationality = taken::state_at(&units, places::NATIONALITY_UNIT);
    let birth = taken::date_at(&units, places::BIRTH_UNIT);
    let sex = characters::sex_by(bits(s, places::SEX, places::SEX_BITS));
    let expiry = taken::date_at(&units, places::EXPIRY_UNIT);
    let name = characters::name_at(&units, places::NAME_UNIT + m);
    let own = characters::own_at(&units, places::OWN_UNIT, m);
    Record {
        form,
        code,
        state,
        number,
        number_len,
        nationality,
        birth,
        sex,
        expiry,
        name,
        name_len: n,
        own,
        own_len: m,
    }
}

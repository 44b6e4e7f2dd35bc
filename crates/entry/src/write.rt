// Writing the entry of a record under a house, in units of six bits.
ghost use Rattle.std.specs.Prelude.{◌≡◌, true, ◌++◌, ◌+◌, ◌≤◌, length, drop};
ghost use Rattle.lent.specs.Copied.{copied, copied_at};
ghost use Rattle.zone.specs.Rooms.{own_room, name_room};
ghost use Rattle.sound.specs.Sound.{is_sound};
ghost use Rattle.packing.specs.Packed.{on, packed};
ghost use Rattle.entry.specs.Entry as E;
ghost use Rattle.entry.specs.Inner.Units.{all_units, all_octets, front_fours, front_octets, front_units, placed, placed_key};
ghost use Rattle.entry.specs.Inner.Units.{placed_after_key, placed_rest, rest_fours, size_by, units_of};

use crate::{codes, places};
use packing::pack::{pack, pack_on, to_codes};
use refusal::Refusal;
use zone::alphabet::FILLER;
use zone::record::Record;

pub fn is_house(house: u32) -> bool
    ensures { result ≡ E.is_house house }
{
    (1 <= house) & (house <= 32767)
}

// The octets of an entry with so many characters of data and name.
fn size(characters: usize) -> usize
    requires { characters ≤ own_room + name_room }
    ensures { result ≡ size_by characters }
{
    (places::BARE + places::CHARACTER * characters + 7) / 8
}

// The characters of the key, each at its unit.
fn put_key(units: &mut [u8], r: Record)
    ensures { units.new ≡ placed_key r units.old }
{
    lent::copy_at(units, places::STATE_UNIT, &r.state);
    lent::copy_at(units, places::NUMBER_UNIT, &r.number);
    lent::copy_at(units, places::BIRTH_UNIT, &r.birth);
    lent::copy_at(units, places::EXPIRY_UNIT, &r.expiry);
}

// Those between the key and the sex.
fn put_after_key(units: &mut [u8], r: Record)
    ensures { units.new ≡ placed_after_key r units.old }
{
    lent::copy_at(units, places::CODE_UNIT, &r.code);
    lent::copy_at(units, places::NATIONALITY_UNIT, &r.nationality);
}

// Those of data and name.
fn put_rest(units: &mut [u8], r: Record)
    requires { is_sound r ≡ true }
    ensures { units.new ≡ placed_rest r units.old }
{
    let m = r.own_len;
    lent::copy_at(units, places::OWN_UNIT, lent::part(&r.own, 0, m));
    lent::copy_at(units, places::NAME_UNIT + m, &r.name);
}

// The characters of a record, each at its unit, and fillers where numbers go.
fn characters_of(r: Record) -> [u8; places::UNITS]
    requires { is_sound r ≡ true }
    ensures { result ≡ placed r }
{
    let mut units = [FILLER; places::UNITS];
    put_key(&mut units, r);
    put_after_key(&mut units, r);
    put_rest(&mut units, r);
    units
}

// Their codes, and the numbers: house and form in three units, the sex in the first bits of one, the lengths of data and name.
fn units_of(house: u32, r: Record) -> [u8; places::UNITS]
    requires { (house ≤ 32767) × (is_sound r ≡ true) }
    ensures { result ≡ units_of house r }
{
    let form = r.form;
    let head = house * 8 + (codes::form_code(form) as u32);
    let sex = codes::sex_code(r.sex);
    let mut units = characters_of(r);
    to_codes(&mut units);
    units[0] = (head / 4096) as u8;
    units[1] = (head / 64 % 64) as u8;
    units[2] = (head % 64) as u8;
    units[places::SEX_UNIT] = sex * 16;
    units[places::FRONT_UNITS] = r.own_len as u8;
    units[places::OWN_UNIT + r.own_len] = r.name_len as u8;
    units
}

// The front, and the rest behind it, over the octets that the front's fours have too many.
fn pack_units(octets: &mut [u8], units: &[u8], characters: usize)
    requires { (characters ≤ own_room + name_room) × (length units.now ≡ all_units) × (length octets.old ≡ all_octets) }
    ensures { octets.new ≡ copied_at (copied octets.old (packed 0 front_fours units.now))
        front_octets (packed on (rest_fours characters) (drop front_units units.now)) }
{
    pack(octets, units, places::FRONT_FOURS);
    pack_on(
        &mut octets[places::FRONT..],
        &units[places::FRONT_UNITS..],
        (characters + 5) / 4,
    );
}

// The octets of an entry, into a range that has room for them.
fn write_octets(house: u32, r: Record, out: &mut [u8])
    requires { (E.is_house house ≡ true) × (is_sound r ≡ true) × (E.size r ≤ length out.old) }
    ensures { out.new ≡ E.entry_of house r ++ drop (E.size r) out.old }
{
    let units = units_of(house, r);
    let mut octets = [0; places::OCTETS];
    let characters = r.own_len + r.name_len;
    pack_units(&mut octets, &units, characters);
    lent::copy(out, lent::part(&octets, 0, size(characters)));
}

// The entry of a record: 17 for a house or a record that is not sound, then 16 for an output that is too short.
pub fn write(house: u32, r: Record, out: &mut [u8]) -> Result<usize, Refusal>
    ensures { E.Writes house r out.old out.new result }
{
    if is_house(house) & sound::is_sound(r) {
        let octets = size(r.own_len + r.name_len);
        if octets <= out.len() {
            write_octets(house, r, out);
            Ok(octets)
        } else {
            Err(Refusal::TOO_SHORT)
        }
    } else {
        Err(Refusal::UNSOUND)
    }
}

// The fields of a record that have one width in every form, taken from characters at a place; past the end stand fillers.
ghost use Rattle.std.specs.Prelude.{◌≡◌, take, drop, get_or};
ghost use Rattle.zone.specs.Alphabet.{filler};
ghost use Rattle.zone.specs.Record.{padded};
ghost use Rattle.zone.specs.Rooms.{code_room, state_room, date_room};

use crate::alphabet::FILLER;
use crate::form::Form;

// The character at a place, and a filler past the end.
fn or_filler(s: &[u8], i: usize) -> u8
    ensures { result ≡ get_or s.now i filler }
{
    if i < s.len() { s[i] } else { FILLER }
}

// Characters with fillers behind them, in a room of any size.
pub fn padded<const N: usize>(s: &[u8]) -> [u8; N]
    ensures { result ≡ padded N s.now }
{
    let mut room = [FILLER; N];
    lent::copy(&mut room, s);
    room
}

pub fn sex_at(s: &[u8], at: usize) -> u8
    ensures { result ≡ get_or (take 1 (drop at s.now)) 0 filler }
{
    or_filler(lent::part(s, at, 1), 0)
}

// Two and three characters one by one: as copies they take twice as many instructions.
pub fn code_at(s: &[u8], at: usize) -> [u8; Form::CODE]
    ensures { result ≡ padded code_room (take code_room (drop at s.now)) }
{
    let part = lent::part(s, at, Form::CODE);
    [or_filler(part, 0), or_filler(part, 1)]
}

pub fn state_at(s: &[u8], at: usize) -> [u8; Form::STATE]
    ensures { result ≡ padded state_room (take state_room (drop at s.now)) }
{
    let part = lent::part(s, at, Form::STATE);
    [or_filler(part, 0), or_filler(part, 1), or_filler(part, 2)]
}

pub fn date_at(s: &[u8], at: usize) -> [u8; Form::DATE]
    ensures { result ≡ padded date_room (take date_room (drop at s.now)) }
{
    padded(lent::part(s, at, Form::DATE))
}

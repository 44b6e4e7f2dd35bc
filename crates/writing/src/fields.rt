// The fields of a record, each put where the text has it: code, state or nationality, dates, name, the issuer's own data.
ghost use Rattle.std.specs.Prelude.{◌≡◌, set, take};
ghost use Rattle.lent.specs.Copied.{copied_at};
ghost use Rattle.zone.specs.Rooms.{code_room, state_room, date_room};
ghost use Rattle.digit.specs.Check.{digit_of};

use zone::form::Form;

pub fn put_code(text: &mut [u8], at: usize, s: [u8; Form::CODE])
    ensures { text.new ≡ copied_at text.old at (take code_room s) }
{
    lent::copy_at(text, at, &s);
}

pub fn put_state(text: &mut [u8], at: usize, s: [u8; Form::STATE])
    ensures { text.new ≡ copied_at text.old at (take state_room s) }
{
    lent::copy_at(text, at, &s);
}

// A date and its check digit.
pub fn put_date(text: &mut [u8], at: usize, check: usize, s: [u8; Form::DATE])
    ensures { text.new ≡
        set (copied_at text.old at (take date_room s)) check (digit_of (take date_room s)) }
{
    lent::copy_at(text, at, &s);
    let d = digit::of(&s);
    lent::put(text, check, d);
}

// As much of a name as the form has room for.
pub fn put_name(text: &mut [u8], at: usize, wide: usize, s: [u8; Form::NAME])
    ensures { text.new ≡ copied_at text.old at (take wide s) }
{
    lent::copy_at(text, at, lent::part(&s, 0, wide));
}

// The first n characters of the issuer's own data, and the check digit over them.
pub fn put_own_characters(text: &mut [u8], at: usize, n: usize, s: [u8; Form::OWN])
    ensures { text.new ≡ copied_at text.old at (take n s) }
{
    lent::copy_at(text, at, lent::part(&s, 0, n));
}

pub fn own_digit(n: usize, s: [u8; Form::OWN]) -> u8
    ensures { result ≡ digit_of (take n s) }
{
    digit::of(lent::part(&s, 0, n))
}

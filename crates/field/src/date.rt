// Dates: pairs of digits, or of fillers where a birth is not known whole.
ghost use Rattle.std.specs.Prelude.{◌≡◌, ◌&&◌, ◌+◌, ◌<◌, get_or};
ghost use Rattle.field.specs.Date.{pair_of, is_leap, days_in, month_rule, day_rule, year_rule, is_known, birth_rule, expiry_rule};

use zone::alphabet::{FILLER, is_digit};

// What two characters of a date say.
#[derive(Clone, Copy)]
pub enum Pair {
    Known(u8),
    Unknown,
    Neither,
}

fn pair_of(a: u8, b: u8) -> Pair
    ensures { result ≡ pair_of a b }
{
    match a {
        b'0'..=b'9' => match b {
            b'0'..=b'9' => Pair::Known((a - b'0') * 10 + (b - b'0')),
            _ => Pair::Neither,
        },
        _ => {
            if (a == FILLER) & (b == FILLER) {
                Pair::Unknown
            } else {
                Pair::Neither
            }
        }
    }
}

// The pair at a place.
fn pair_at(s: &[u8], at: usize) -> Pair
    requires { at < 6 }
    ensures { result ≡ pair_of (get_or s.now at 0) (get_or s.now (at + 1) 0) }
{
    pair_of(lent::octet(s, at), lent::octet(s, at + 1))
}

fn is_leap(year: Pair) -> bool
    ensures { result ≡ is_leap year }
{
    match year {
        Pair::Known(n) => n % 4 == 0,
        Pair::Unknown => true,
        Pair::Neither => false,
    }
}

// The length of a month, 31 where it is not known.
fn days_in(year: Pair, month: Pair) -> u8
    ensures { result ≡ days_in year month }
{
    match month {
        Pair::Known(n) => match n {
            2 => { if is_leap(year) { 29 } else { 28 } }
            4 => 30,
            6 => 30,
            9 => 30,
            11 => 30,
            _ => 31,
        },
        Pair::Unknown => 31,
        Pair::Neither => 31,
    }
}

fn is_month(month: Pair) -> bool
    ensures { result ≡ month_rule month }
{
    match month {
        Pair::Known(n) => (1 <= n) & (n <= 12),
        Pair::Unknown => true,
        Pair::Neither => false,
    }
}

fn is_day(last: u8, day: Pair) -> bool
    ensures { result ≡ day_rule last day }
{
    match day {
        Pair::Known(n) => (1 <= n) & (n <= last),
        Pair::Unknown => true,
        Pair::Neither => false,
    }
}

fn is_year(year: Pair) -> bool
    ensures { result ≡ year_rule year }
{
    match year {
        Pair::Known(_) => true,
        Pair::Unknown => true,
        Pair::Neither => false,
    }
}

// Two digits.
fn is_known(a: u8, b: u8) -> bool
    ensures { result ≡ is_known (pair_of a b) }
{
    is_digit(a) & is_digit(b)
}

// A day of a month of a year.
fn is_date(year: Pair, month: Pair, day: Pair) -> bool
    ensures { result ≡ year_rule year && (month_rule month && day_rule (days_in year month) day) }
{
    is_year(year) & (is_month(month) & is_day(days_in(year, month), day))
}

pub fn is_birth(s: &[u8]) -> bool
    ensures { result ≡ birth_rule s.now }
{
    is_date(pair_at(s, 0), pair_at(s, 2), pair_at(s, 4))
}

// The six are tested first: so no pair has to be asked what it is.
pub fn is_expiry(s: &[u8]) -> bool
    ensures { result ≡ expiry_rule s.now }
{
    let a = lent::octet(s, 0);
    let b = lent::octet(s, 1);
    let c = lent::octet(s, 2);
    let d = lent::octet(s, 3);
    let e = lent::octet(s, 4);
    let f = lent::octet(s, 5);
    if is_known(a, b) & (is_known(c, d) & is_known(e, f)) {
        is_date(pair_of(a, b), pair_of(c, d), pair_of(e, f))
    } else {
        false
    }
}

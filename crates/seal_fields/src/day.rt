// A calendar day in three octets, as the number MMDDYYYY.
ghost use Rattle.std.specs.Prelude.{◌≡◌, ◌<◌, ◌^◌};
ghost use Rattle.c40.specs.Inner.Imaged.{reduced};
ghost use Rattle.seal_fields.specs.Day.{is_leap, days_in, is_day, day_of, number_in, day_at, day_octets};

#[derive(Clone, Copy)]
pub struct Day {
    pub year: u16,
    pub month: u8,
    pub day: u8,
}

fn is_leap(year: u16) -> bool
    ensures { result ≡ is_leap year }
{
    ((year % 4 == 0) & (year % 100 != 0)) | (year % 400 == 0)
}

fn days_in(year: u16, month: u8) -> u8
    ensures { result ≡ days_in year month }
{
    match month {
        2 => { if is_leap(year) { 29 } else { 28 } }
        4 => 30,
        6 => 30,
        9 => 30,
        11 => 30,
        _ => 31,
    }
}

// A day of the years 1 to 9999.
pub fn is_day(d: Day) -> bool
    ensures { result ≡ is_day d }
{
    let last = days_in(d.year, d.month);
    ((1 <= d.year) & (d.year <= 9999))
        & (((1 <= d.month) & (d.month <= 12)) & ((1 <= d.day) & (d.day <= last)))
}

// The number in three octets, 0 where there are not three.
fn number_in(s: &[u8]) -> u32
    ensures { (result ≡ number_in s.now) × (result < 2 ^ 24) }
{
    if s.len() == 3 {
        let a = lent::octet(s, 0) as u32;
        let b = lent::octet(s, 1) as u32;
        let c = lent::octet(s, 2) as u32;
        a * 65536 + b * 256 + c
    } else {
        0
    }
}

fn day_of(n: u32) -> Day
    requires { n < 2 ^ 24 }
    ensures { result ≡ day_of n }
{
    Day {
        year: (n % 10000) as u16,
        month: (n / 1000000) as u8,
        day: (n / 10000 % 100) as u8,
    }
}

// What the three octets at a place say.
pub fn day_at(s: &[u8], at: usize) -> Day
    ensures { result ≡ day_at s.now at }
{
    day_of(number_in(lent::part(s, at, 3)))
}

// The number MMDDYYYY in three octets; of what is no day the last three.
pub fn octets_of(d: Day) -> [u8; 3]
    ensures { result ≡ reduced (day_octets d) }
{
    let n = d.month as u32 * 1000000 + d.day as u32 * 10000 + d.year as u32;
    [
        (n / 65536 % 256) as u8,
        (n / 256 % 256) as u8,
        (n % 256) as u8,
    ]
}

// What a sum is made of: what a character counts, the weight at its place, and the digit that the sum is written as.
ghost use Rattle.std.specs.Prelude.{◌≡◌};
ghost use Rattle.digit.specs.Check.{value, weight};
ghost use Rattle.digit.specs.Inner.Thirds.{as_digit};

// What a character counts.
pub fn value(c: u8) -> usize
    ensures { result ≡ value c }
{
    match c {
        b'0'..=b'9' => (c - b'0') as usize,
        b'A'..=b'Z' => (c - b'A' + 10) as usize,
        _ => 0,
    }
}

// The weight at a place.
pub fn weight(place: usize) -> usize
    ensures { result ≡ weight place }
{
    let turn = place % 3;
    match turn {
        0 => 7,
        1 => 3,
        _ => 1,
    }
}

// A sum written as a digit.
pub fn as_digit(sum: usize) -> u8
    ensures { result ≡ as_digit sum }
{
    b'0' + (sum % 10) as u8
}

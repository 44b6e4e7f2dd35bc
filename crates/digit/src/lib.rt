// The check digit of Doc 9303-3: weights 7, 3, 1 over a field, or over several pieces as if they were joined.
#![tactic(auto)]

ghost use Rattle.std.specs.Prelude.{◌≡◌};
ghost use Rattle.digit.specs.Check.{digit_of};

use crate::sum::as_digit;
use crate::thirds::Thirds;

pub mod composite;
pub mod sum;
pub mod thirds;

// A multiple of three, and few enough to be counted in an octet.
const AT_ONCE: usize = 255;

// The check digit of a field. Of one that is longer than any, so many characters at a time that the weights start again.
pub fn of(s: &[u8]) -> u8
    ensures { result ≡ digit_of s.now }
{
    let mut sum = 0;
    for part in s.chunks(AT_ONCE) {
        sum = (sum + Thirds::whole(part).weighed(0)) % 10;
    }
    as_digit(sum)
}

// The pairs of characters that a check digit does not tell apart, as numbers: 37 times the code of the lower, and the upper's.
ghost use Rattle.std.specs.Prelude.{◌≡◌, map, ◌≤◌, ◌<◌, length, take};
ghost use Rattle.digit_theorems.specs.Pairs.{pair_at, is_undetected, undetected};

use digit::sum::value;
use zone::codes::characters;

// Codes of characters are below this.
pub(crate) const CODES: usize = 37;

// Pairs of them.
pub(crate) const PAIRS: usize = 1369;

// An array and no `Vec`, since memory from the heap can fail, and this list always came.
#[derive(Clone, Copy)]
pub(crate) struct List {
    pub count: usize,
    pub numbers: [usize; PAIRS],
}

// Different characters, the lower first, whose values agree.
fn is_undetected(modulus: usize, number: usize) -> bool
    requires { (0 < modulus) × (number < 1369) }
    ensures { result ≡ is_undetected modulus (pair_at number) }
{
    let by_code = characters();
    let lower = number / CODES;
    let upper = number % CODES;
    let one = value(by_code[lower]) % modulus;
    let other = value(by_code[upper]) % modulus;
    (lower < upper) & (one == other)
}

// All of them, in rising order; what stands behind the count is none.
pub(crate) fn undetected(modulus: usize) -> List
    requires { 0 < modulus }
    ensures { (result.count ≤ length result.numbers) × (map pair_at (take result.count result.numbers) ≡ undetected modulus) }
{
    let mut numbers = [0; PAIRS];
    let mut count = 0;
    for number in 0..PAIRS {
        if is_undetected(modulus, number) {
            numbers[count] = number;
            count += 1;
        }
    }
    List { count, numbers }
}

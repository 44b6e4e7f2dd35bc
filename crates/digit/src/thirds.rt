// A field gone over once: its check digit and its part in the composite digit are the same counts with other weights.
ghost use Rattle.std.specs.Prelude.{◌≡◌, ℕ, ◌<◌, ◌^◌, length, take, drop};
ghost use Rattle.digit.specs.Check.{value};
ghost use Rattle.digit.specs.Inner.Thirds.{thirds_by, thirds_of, thirds_in, Counts, weighed};

use crate::sum::{value, weight};
use zone::form::Form;

// What each place of a text counts, 0 past its end. A loop of its own, so that the compiler takes many characters at a time.
pub(crate) fn counts(text: &[u8]) -> [u8; Form::TD1_TEXT]
    ensures { Counts text.now result }
{
    let s = lent::part(text, 0, Form::TD1_TEXT);
    let mut counts = [0; Form::TD1_TEXT];
    for (i, c) in s.iter().enumerate() {
        counts[i] = count_of(*c);
    }
    counts
}

// What a character counts, in an octet.
fn count_of(c: u8) -> u8
    ensures { result ≡ value c }
{
    value(c) as u8
}

// What the characters at every third place count together, from each of the first three places on.
#[derive(Clone, Copy)]
pub struct Thirds {
    pub first: u32,
    pub second: u32,
    pub third: u32,
}

impl Thirds {
    // Of so many octets, by what each counts: what is past the end counts what 0 does. Along slices in place of an index the sums
    // of a text took three instructions in a hundred more.
    fn by<F: Fn(u8) -> u8>(part: &[u8], count: F) -> Thirds
        requires callable { F.IsAlwaysCallable count }
        requires short { length part.now < 256 }
        ensures { (f : ℕ → ℕ) → f 0 ≡ 0 → ((c n : ℕ) → F.post count c n → n ≡ f c) → result ≡ thirds_by f part.now }
    {
        let mut first = 0;
        let mut second = 0;
        let mut third = 0;
        let mut i = 0;
        while i + 2 < part.len() {
            first += u32::from(count(part[i]));
            second += u32::from(count(part[i + 1]));
            third += u32::from(count(part[i + 2]));
            i += 3;
        }
        first += u32::from(count(lent::octet(part, i)));
        second += u32::from(count(lent::octet(part, i + 1)));
        Thirds {
            first,
            second,
            third,
        }
    }

    // Of so many characters from a place on.
    pub fn of(s: &[u8], at: usize, width: u8) -> Thirds
        ensures { result ≡ thirds_of (take width (drop at s.now)) }
    {
        Thirds::whole(lent::part(s, at, usize::from(width)))
    }

    // Of all that there are.
    pub(crate) fn whole(part: &[u8]) -> Thirds
        requires { length part.now < 256 }
        ensures { result ≡ thirds_of part.now }
    {
        Thirds::by(part, count_of)
    }

    // The same where it was worked out before what each character counts.
    pub(crate) fn counted(counts: &[u8], at: usize, width: u8) -> Thirds
        ensures { result ≡ thirds_in (take width (drop at counts.now)) }
    {
        Thirds::by(lent::part(counts, at, usize::from(width)), |n| n)
    }

    // Their sum, with weights that start at a place.
    pub fn weighed(self, place: usize) -> usize
        ensures { (result ≡ weighed self place) × (result < 2 ^ 37) }
    {
        let turn = place % 3;
        let first = (self.first as usize) * weight(turn);
        let second = (self.second as usize) * weight(turn + 1);
        let third = (self.third as usize) * weight(turn + 2);
        first + second + third
    }
}

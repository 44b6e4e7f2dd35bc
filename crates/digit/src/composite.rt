// The composite digit: of several pieces of a text, joined as its form says.
ghost use Rattle.std.specs.Prelude.{◌≡◌, List, ℕ, ◌*◌, ◌%◌, ◌<◌, ◌^◌, get_or, take, drop};
ghost use Rattle.digit.specs.Check.{weight};
ghost use Rattle.digit.specs.Inner.Thirds.{thirds_in, weighed, Counts, as_digit};
ghost use Rattle.digit.specs.Inner.Covered.{sums_of, beside_sum, others_sum, composite_sum};

use crate::sum::{as_digit, weight};
use crate::thirds::{Thirds, counts};
use zone::form::Form;

// The fields that have a check digit, each gone over once; and what the composite covers beside number and dates, modulo 10.
#[derive(Clone, Copy)]
pub struct Sums {
    pub number: Thirds,
    pub birth: Thirds,
    pub expiry: Thirds,
    pub personal: Thirds,
    pub others: u8,
}

// What one character adds, where so many are covered before it.
fn one(counts: &[u8], at: usize, before: usize) -> usize
    ensures { (result ≡ get_or counts.now at 0 * weight before) × (result < 2048) }
{
    (lent::octet(counts, at) as usize) * weight(before)
}

// What so many characters add.
fn some(counts: &[u8], at: usize, width: usize, before: usize) -> usize
    requires { width < 256 }
    ensures { (result ≡ weighed (thirds_in (take width (drop at counts.now))) before) × (result < 2 ^ 37) }
{
    Thirds::counted(counts, at, width as u8).weighed(before)
}

// The optional fields and the personal number's digit. A form that lacks one of them has no character there.
fn beside(form: Form, counts: &[u8]) -> usize
    ensures { ((t : List ℕ) → Counts t counts.now → result ≡ beside_sum form t) × (result < 2 ^ 39) }
{
    let at = form.places();
    some(counts, at.optional, at.optional_width, at.optional_before)
        + some(counts, at.optional2, at.optional2_width, 39)
        + some(counts, at.personal_check, at.personal_check_width, 38)
}

// What all else comes to: the three digits, and what is beside.
fn others(form: Form, counts: &[u8]) -> u8
    ensures { (t : List ℕ) → Counts t counts.now → result ≡ others_sum form t % 10 }
{
    let at = form.places();
    let digits = one(counts, at.number_check, 9)
        + one(counts, at.birth_check, 16)
        + one(counts, at.expiry_check, 23);
    ((digits + beside(form, counts)) % 10) as u8
}

impl Sums {
    fn by(form: Form, counts: &[u8]) -> Sums
        ensures { (t : List ℕ) → Counts t counts.now → result ≡ sums_of form t }
    {
        let at = form.places();
        let number = Thirds::counted(counts, at.number, Form::NINE as u8);
        let birth = Thirds::counted(counts, at.birth, Form::DATE as u8);
        let expiry = Thirds::counted(counts, at.expiry, Form::DATE as u8);
        let personal = Thirds::counted(counts, at.personal, at.personal_width as u8);
        let others = others(form, counts);
        Sums {
            number,
            birth,
            expiry,
            personal,
            others,
        }
    }

    pub fn of(form: Form, text: &[u8]) -> Sums
        ensures { result ≡ sums_of form text.now }
    {
        let all = counts(text);
        Sums::by(form, &all)
    }
}

// The digit of everything that the composite covers, from the sums of a text. In every form that has one the number stands first,
// birth and its digit behind ten characters or 25, expiry and its digit behind seven more, and the personal number behind 24:
// weights start again after three.
pub fn digit_by(sums: Sums) -> u8
    ensures { result ≡ as_digit (composite_sum sums) }
{
    let number = sums.number;
    let birth = sums.birth;
    let expiry = sums.expiry;
    let personal = sums.personal;
    let dates = birth.weighed(10) + expiry.weighed(17);
    let fields = number.weighed(0) + dates + personal.weighed(24);
    as_digit(fields + sums.others as usize)
}

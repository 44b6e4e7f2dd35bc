// The check digits, 9: each judged at its place, and all of them in text order.
ghost use Rattle.std.specs.Prelude.{◌≡◌, true, ◌&&◌, List, ℕ};
ghost use Rattle.refusal.specs.Outcome.{outcome_of, or_else};
ghost use Rattle.zone.specs.Alphabet.{is_digit, is_filler, every};
ghost use Rattle.zone.specs.Form.{parts};
ghost use Rattle.zone.specs.Part.{number, number_check, optional, birth_check, expiry_check, personal, personal_check, composite};
ghost use Rattle.digit.specs.Check.{digit_of};
ghost use Rattle.digit.specs.Inner.Thirds.{thirds_of};
ghost use Rattle.digit.specs.Inner.Covered.{sums_of};
ghost use Rattle.text_digits.specs.Digits.{digit_at, digit_check, in_order};
ghost use Rattle.text_digits.specs.Number.{checked_by};
ghost use Rattle.text_digits.specs.Inner.Checks.{written_at, if_has};
ghost use Rattle.text_digits.specs.declared.number.Span.{Span};
ghost use Rattle.text_digits.specs.declared.number.Span.TheVariants.{Long};

use crate::number::Span;
use crate::order::in_turn;
use digit::composite::{Sums, digit_by};
use digit::sum::as_digit;
use digit::thirds::Thirds;
use refusal::{Cause, Refusal};
use zone::alphabet::{FILLER, all_fillers};
use zone::form::Form;

// Whether a place holds the digit that was worked out, which the refusal carries, as 0 to 9.
fn judged_digit(text: &[u8], place: usize, digit: u8) -> Result<(), Refusal>
    requires { is_digit digit ≡ true }
    ensures { outcome_of result ≡ written_at text.now place digit }
{
    let expected = digit - b'0';
    let there = lent::octet(text, place);
    Refusal::unless(there == digit, Cause::Digit(expected), place)
}

// Whether a place holds the check digit of a field that was gone over.
fn field_digit(text: &[u8], place: usize, field: Thirds) -> Result<(), Refusal>
    ensures { (s : List ℕ) → field ≡ thirds_of s → outcome_of result ≡ digit_at text.now place s }
{
    judged_digit(text, place, as_digit(field.weighed(0)))
}

fn number_digit(form: Form, text: &[u8], span: Span, sums: Sums) -> Result<(), Refusal>
    requires { sums ≡ sums_of form text.now }
    ensures { outcome_of result ≡ digit_check form text.now span number_check }
{
    let at = form.places();
    let number = sums.number;
    match span {
        Span::Short => field_digit(text, at.number_check, number),
        Span::Long(_) => Ok(()),
        Span::Bad => Ok(()),
    }
}

// A filler may stand for the digit of a personal number that is all fillers.
fn is_left_out(number: &[u8], check: u8) -> bool
    ensures { result ≡ is_filler check && every is_filler number.now }
{
    if check == FILLER {
        all_fillers(number)
    } else {
        false
    }
}

// Only some forms have a personal number.
fn personal_digit(form: Form, text: &[u8], sums: Sums) -> Result<(), Refusal>
    requires { sums ≡ sums_of form text.now }
    ensures { (span : Span) → outcome_of result ≡
        if_has form personal (digit_check form text.now span personal_check) }
{
    let at = form.places();
    let wide = form.personal_width();
    if 0 < wide {
        let number = lent::part(text, at.personal, wide);
        if is_left_out(number, lent::octet(text, at.personal_check)) {
            Ok(())
        } else {
            let field = sums.personal;
            field_digit(text, at.personal_check, field)
        }
    } else {
        Ok(())
    }
}

// Nor have all of them a composite.
fn composite_digit(form: Form, text: &[u8], sums: Sums) -> Result<(), Refusal>
    requires { sums ≡ sums_of form text.now }
    ensures { (span : Span) → outcome_of result ≡
        if_has form composite (digit_check form text.now span composite) }
{
    let at = form.places();
    if 0 < form.composite_width() {
        judged_digit(text, at.composite, digit_by(sums))
    } else {
        Ok(())
    }
}

// The check runs over the nine and the further characters, as if they stood together.
fn long_sum(form: Form, text: &[u8], further: u8, sums: Sums) -> u8
    requires { sums ≡ sums_of form text.now }
    ensures { result ≡ digit_of (checked_by form text.now (Long further)) }
{
    let at = form.places();
    let number = sums.number;
    let optional = lent::part(text, at.optional, form.optional_width());
    as_digit(number.weighed(0) + Thirds::of(optional, 0, further).weighed(Form::NINE))
}

fn long_digit(form: Form, text: &[u8], further: u8, sums: Sums) -> Result<(), Refusal>
    requires { sums ≡ sums_of form text.now }
    ensures { outcome_of result ≡ digit_check form text.now (Long further) optional }
{
    let at = form.places();
    let n = further as usize;
    judged_digit(text, at.optional + n, long_sum(form, text, further, sums))
}

// A long number's digit stands behind its further characters, in forms that have room for them.
fn further_digit(form: Form, text: &[u8], span: Span, sums: Sums) -> Result<(), Refusal>
    requires { sums ≡ sums_of form text.now }
    ensures { outcome_of result ≡ if_has form optional (digit_check form text.now span optional) }
{
    if 0 < form.optional_width() {
        match span {
            Span::Short => Ok(()),
            Span::Long(further) => long_digit(form, text, further, sums),
            Span::Bad => Ok(()),
        }
    } else {
        Ok(())
    }
}

// Birth and expiry stand in this order in every form.
fn dates_digit(form: Form, text: &[u8], sums: Sums) -> Result<(), Refusal>
    requires { sums ≡ sums_of form text.now }
    ensures { (span : Span) → outcome_of result ≡
        or_else (digit_check form text.now span birth_check) (digit_check form text.now span expiry_check) }
{
    let at = form.places();
    let birth = sums.birth;
    let expiry = sums.expiry;
    field_digit(text, at.birth_check, birth).and(field_digit(text, at.expiry_check, expiry))
}

// The first check digit, in text order, that is wrong. Forms differ in where the optional field stands.
pub fn digits(form: Form, text: &[u8], span: Span) -> Result<(), Refusal>
    ensures { outcome_of result ≡ in_order (digit_check form text.now span) (parts form) }
{
    let at = form.places();
    let sums = Sums::of(form, text);
    let number = number_digit(form, text, span, sums);
    let further = further_digit(form, text, span, sums);
    let dates = dates_digit(form, text, sums);
    let last = personal_digit(form, text, sums).and(composite_digit(form, text, sums));
    number.and(in_turn(at.optional < at.birth, further, dates).and(last))
}

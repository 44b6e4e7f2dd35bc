// The field rules, 3 to 8: each field judged at its start, and all of them in text order.
ghost use Rattle.std.specs.Prelude.{◌≡◌, not, ◌&&◌, get_or};
ghost use Rattle.refusal.specs.Outcome.{outcome_of, or_else};
ghost use Rattle.zone.specs.Alphabet.{is_filler};
ghost use Rattle.zone.specs.Form.{parts};
ghost use Rattle.zone.specs.Part.{code, state, number, nationality, birth, sex, expiry, name};
ghost use Rattle.text_digits.specs.Number.{span_rule};
ghost use Rattle.text_digits.specs.Digits.{in_order};
ghost use Rattle.text_digits.specs.declared.number.Span.{Span};
ghost use Rattle.text.specs.Order.{field_check};

use refusal::{Cause, Refusal};
use text_digits::number::Span;
use text_digits::order::in_turn;
use zone::alphabet::FILLER;
use zone::form::Form;

// Code and state open every form.
fn opening_check(form: Form, text: &[u8]) -> Result<(), Refusal>
    ensures { (span : Span) → outcome_of result ≡
        or_else (field_check form text.now span code) (field_check form text.now span state) }
{
    let at = form.places();
    let code = field::code::is_code(form, lent::part(text, at.code, Form::CODE));
    let state = field::letters::is_state(lent::part(text, at.state, Form::STATE));
    Refusal::unless(code, Cause::Code, at.code).and(Refusal::unless(state, Cause::State, at.state))
}

fn nationality_check(form: Form, text: &[u8]) -> Result<(), Refusal>
    ensures { (span : Span) → outcome_of result ≡ field_check form text.now span nationality }
{
    let at = form.places();
    Refusal::unless(
        field::letters::is_state(lent::part(text, at.nationality, Form::STATE)),
        Cause::State,
        at.nationality,
    )
}

// A long number ends as it should.
fn is_ended(span: Span) -> bool
    ensures { result ≡ span_rule span }
{
    match span {
        Span::Short => true,
        Span::Long(_) => true,
        Span::Bad => false,
    }
}

// Nor does a number begin with a filler.
fn is_number(s: &[u8], span: Span) -> bool
    ensures { result ≡ not (is_filler (get_or s.now 0 0)) && span_rule span }
{
    (lent::octet(s, 0) != FILLER) & is_ended(span)
}

fn number_check(form: Form, text: &[u8], span: Span) -> Result<(), Refusal>
    ensures { outcome_of result ≡ field_check form text.now span number }
{
    let at = form.places();
    Refusal::unless(
        is_number(lent::part(text, at.number, Form::NINE), span),
        Cause::Number,
        at.number,
    )
}

fn name_check(form: Form, text: &[u8]) -> Result<(), Refusal>
    ensures { (span : Span) → outcome_of result ≡ field_check form text.now span name }
{
    let at = form.places();
    Refusal::unless(
        field::letters::is_name(lent::part(text, at.name, form.name_width())),
        Cause::Name,
        at.name,
    )
}

// Birth, sex and expiry stand in this order in every form.
fn person_check(form: Form, text: &[u8]) -> Result<(), Refusal>
    ensures { (span : Span) → outcome_of result ≡ or_else (field_check form text.now span birth)
        (or_else (field_check form text.now span sex) (field_check form text.now span expiry)) }
{
    let at = form.places();
    let birth = field::date::is_birth(lent::part(text, at.birth, Form::DATE));
    let sex = field::letters::is_sex(lent::octet(text, at.sex));
    let expiry = field::date::is_expiry(lent::part(text, at.expiry, Form::DATE));
    let last = Refusal::unless(sex, Cause::Sex, at.sex).and(Refusal::unless(
        expiry,
        Cause::Date,
        at.expiry,
    ));
    Refusal::unless(birth, Cause::Date, at.birth).and(last)
}

// The first field, in text order, that breaks its rule. Forms differ in where name and nationality stand.
pub fn fields(form: Form, text: &[u8], span: Span) -> Result<(), Refusal>
    ensures { outcome_of result ≡ in_order (field_check form text.now span) (parts form) }
{
    let at = form.places();
    let opening = opening_check(form, text);
    let name = name_check(form, text);
    let number = number_check(form, text, span);
    let nationality = nationality_check(form, text);
    let person = person_check(form, text);
    let name_first = at.name < at.number;
    let holder = number.and(in_turn(name_first, nationality, person));
    opening.and(in_turn(name_first, name, holder))
}

// Reading a text: its form by what may stand there, its characters, its fields, its check digits, and then its record.
ghost use Rattle.std.specs.Prelude.{◌≡◌, Some};
ghost use Rattle.refusal.specs.Outcome.{outcome_of};
ghost use Rattle.text.specs.Order.{characters, verdict_by};
ghost use Rattle.text.specs.Read.{answer_of, read_by, read_text};

use crate::fields::fields;
use crate::record::record_by;
use refusal::{Cause, Refusal};
use text_digits::digits::digits;
use text_digits::number::{Span, span_of};
use zone::form::{Form, Source};
use zone::record::Record;

#[tactic(auto, unfolding(crate::specs::Order::characters))]
fn character_check(text: &[u8]) -> Result<(), Refusal>
    ensures { outcome_of result ≡ characters text.now }
{
    let place = zone::alphabet::first_foreign(text);
    let n = text.len();
    Refusal::unless(place == n, Cause::Character, place)
}

#[tactic(auto, unfolding(crate::specs::Order::verdict_by))]
fn verdict_by(form: Form, text: &[u8], span: Span) -> Result<(), Refusal>
    ensures { outcome_of result ≡ verdict_by form text.now span }
{
    character_check(text)?;
    fields(form, text, span)?;
    digits(form, text, span)
}

#[tactic(auto, unfolding(crate::specs::Read::read_by, crate::specs::Read::answered, crate::specs::Read::answer_of))]
fn read_by(form: Form, text: &[u8]) -> Result<Record, Refusal>
    ensures { answer_of result ≡ read_by (Some form) text.now }
{
    let span = span_of(form, text);
    verdict_by(form, text, span)?;
    Ok(record_by(form, text, span))
}

// Any octets at all are read as a text, or refused with cause and place.
pub fn read(source: Source, text: &[u8]) -> Result<Record, Refusal>
    ensures { answer_of result ≡ read_text source text.now }
{
    match Form::of_text(source, text) {
        Some(form) => read_by(form, text),
        None => Err(Refusal::at(Cause::Length, 0)),
    }
}

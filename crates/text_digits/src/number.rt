// Where a document number ends: within its nine places, or in the optional field behind them.
ghost use Rattle.std.specs.Prelude.{◌≡◌};
ghost use Rattle.text_digits.specs.Number.{cut_at, span_of};

use zone::alphabet::FILLER;
use zone::form::Form;

#[derive(Clone, Copy)]
pub enum Span {
    Short,
    // This many further characters stand in the optional field, and then the check digit.
    Long(u8),
    Bad,
}

// From the place of the first filler of the optional field, where the long number is cut.
pub fn cut_at(form: Form, filler: usize) -> Span
    ensures { result ≡ cut_at form filler }
{
    if (2 <= filler) & (filler < form.optional_width()) {
        Span::Long((filler - 1) as u8)
    } else {
        Span::Bad
    }
}

pub fn span_of(form: Form, text: &[u8]) -> Span
    ensures { result ≡ span_of form text.now }
{
    let at = form.places();
    if (Form::NINE < form.longest_number()) & (lent::octet(text, at.number_check) == FILLER) {
        let optional = lent::part(text, at.optional, form.optional_width());
        cut_at(form, zone::alphabet::first_filler(optional))
    } else {
        Span::Short
    }
}

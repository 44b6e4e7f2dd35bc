// The document number in a text, short or long.
ghost use Rattle.std.specs.Prelude.{◌≡◌, ◌+◌, ◌<◌, length, set, take};
ghost use Rattle.lent.specs.Copied.{copied_at};
ghost use Rattle.zone.specs.Alphabet.{filler};
ghost use Rattle.zone.specs.Rooms.{nine};
ghost use Rattle.digit.specs.Check.{digit_of};
ghost use Rattle.writing.specs.Text.{further_of};
ghost use Rattle.writing.specs.Inner.Puts.{put_short, put_long, put_number};

use zone::alphabet::FILLER;
use zone::form::Form;
use zone::record::Record;

fn put_nine(text: &mut [u8], at: usize, s: [u8; Form::NUMBER])
    ensures { text.new ≡ copied_at text.old at (take nine s) }
{
    lent::copy_at(text, at, lent::part(&s, 0, Form::NINE));
}

fn nine_digit(s: [u8; Form::NUMBER]) -> u8
    ensures { result ≡ digit_of (take nine s) }
{
    digit::of(lent::part(&s, 0, Form::NINE))
}

// The characters from the tenth on, behind them the check digit of the whole number, and a filler.
fn put_further(text: &mut [u8], at: usize, wide: usize, s: [u8; Form::NUMBER], n: usize)
    requires { at < 256 }
    ensures { text.new ≡ set (set (copied_at text.old at (take wide (further_of (take n s))))
        (at + length (further_of (take n s))) (digit_of (take n s))) (at + length (further_of (take n s)) + 1) filler }
{
    let whole = lent::part(&s, 0, n);
    let further = lent::part(whole, Form::NINE, Form::FURTHER);
    lent::copy_at(text, at, lent::part(further, 0, wide));
    let d = digit::of(whole);
    lent::put(text, at + further.len(), d);
    lent::put(text, at + further.len() + 1, FILLER);
}

fn put_short(text: &mut [u8], r: Record)
    ensures { text.new ≡ put_short r text.old }
{
    let form = r.form;
    let at = form.places();
    let number = r.number;
    put_nine(text, at.number, number);
    let d = nine_digit(number);
    lent::put(text, at.number_check, d);
}

fn put_long(text: &mut [u8], r: Record)
    ensures { text.new ≡ put_long r text.old }
{
    let form = r.form;
    let at = form.places();
    let number = r.number;
    put_nine(text, at.number, number);
    lent::put(text, at.number_check, FILLER);
    put_further(
        text,
        at.optional,
        form.optional_width(),
        number,
        r.number_len,
    );
}

// A number over nine characters runs into the optional field.
pub fn put_number(text: &mut [u8], r: Record)
    ensures { text.new ≡ put_number r text.old }
{
    if Form::NINE < r.number_len {
        put_long(text, r);
    } else {
        put_short(text, r);
    }
}

// The text of feature 02.
ghost use Rattle.std.specs.Prelude.{Bool, cond, ◌≡◌, length};
ghost use Rattle.writing.specs.Text.{text_of};
ghost use Rattle.seal_writing.specs.Seal.{is_td2, is_fit};

use zone::form::Form;
use zone::record::Record;

fn is_td2(form: Form) -> bool
    ensures { result ≡ is_td2 form }
{
    form == Form::Td2
}

// Whether a record is a sound one of TD2, which the writer of its text asks. Then the text stands in the range.
pub(crate) fn text_in(r: Record, text: &mut [u8]) -> bool
    requires { length text.old ≡ 72 }
    ensures { (result ≡ is_fit r) × (text.new ≡ cond (is_fit r) (text_of r) text.old) }
{
    if is_td2(r.form) {
        writing::write::write(r, text).is_ok()
    } else {
        false
    }
}

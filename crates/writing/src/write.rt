// Writing a text into a lent range: 17 for a record that is not sound, then 16 for a range that is too short.
ghost use Rattle.writing.specs.Answer.{Writes};

use crate::whole::put_all;
use refusal::Refusal;
use zone::record::Record;

// The text of any record at all.
pub fn write(r: Record, out: &mut [u8]) -> Result<usize, Refusal>
    ensures { Writes r out.old out.new result }
{
    let form = r.form;
    let n = form.text_length();
    if sound::is_sound(r) {
        if n <= out.len() {
            put_all(&mut out[..n], r);
            Ok(n)
        } else {
            Err(Refusal::TOO_SHORT)
        }
    } else {
        Err(Refusal::UNSOUND)
    }
}

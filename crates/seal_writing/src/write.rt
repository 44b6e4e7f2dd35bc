// Writing a seal into a lent range: 17 for the record, 28 for the header or the seal's length, then 16 for a range that is too
// short.
ghost use Rattle.std.specs.Prelude.{◌≡◌, ◌≤◌, length};
ghost use Rattle.refusal.specs.Length.{length_of};
ghost use Rattle.refusal.specs.Outcome.{passed};
ghost use Rattle.refusal.specs.Output.{write_answer, write_out};
ghost use Rattle.seal_writing.specs.Seal.{WritesSeal};
ghost use Rattle.seal_writing.specs.Inner.Parts.{parts_of, seal_width};

use crate::carried::is_carried;
use crate::text::text_in;
use crate::whole::{put_seal, seal_width};
use refusal::{Cause, Refusal};
use seal_header::header::Header;
use zone::alphabet::FILLER;
use zone::form::Form;
use zone::record::Record;

// A seal of so many octets, to the front of a range that has room for it.
fn write_parts(
    h: Header,
    text: [u8; Form::TD2_TEXT],
    signature: &[u8],
    wide: usize,
    out: &mut [u8],
) -> Result<usize, Refusal>
    requires { (wide ≡ seal_width h.reference_len signature.now) × (wide ≤ 65535) }
    ensures result_value { length_of result ≡ write_answer passed wide out.old }
    ensures out_after { out.new ≡ write_out passed wide (parts_of h text signature.now) out.old }
{
    if wide <= out.len() {
        put_seal(&mut out[..wide], h, text, signature);
        Ok(wide)
    } else {
        Err(Refusal::TOO_SHORT)
    }
}

// The seal of any header, record and signature at all.
pub fn write(h: Header, r: Record, signature: &[u8], out: &mut [u8]) -> Result<usize, Refusal>
    ensures { WritesSeal h r signature.now out.old out.new result }
{
    let mut text = [FILLER; Form::TD2_TEXT];
    let fit = text_in(r, &mut text);
    let wide = seal_width(h.reference_len, signature);
    let carried = is_carried(h) & (wide <= 65535);
    Refusal::unless(fit, Cause::Unsound, 0)?;
    Refusal::unless(carried, Cause::SealInput, 0)?;
    write_parts(h, text, signature, wide, out)
}

// What C receives of a record: its fields.
ghost use Rattle.std.specs.Prelude.{◌≡◌, ◌<◌};
ghost use Rattle.as_entry.specs.Opened.{record_in_c};

use crate::received::RecordInC;
use entry::codes::form_code;
use zone::record::Record;

// The lengths of a record that the run reader hands out fit an octet. That, and three values that go in, are no From.
pub(crate) fn record_in_c(number: u32, house: u32, kept: Record) -> RecordInC
    requires { (kept.number_len < 256) × (kept.name_len < 256) × (kept.own_len < 256) }
    ensures { result ≡ record_in_c number house kept }
{
    let form = kept.form;
    let code = kept.code;
    let state = kept.state;
    let nationality = kept.nationality;
    let birth = kept.birth;
    let expiry = kept.expiry;
    let document_number = kept.number;
    let name = kept.name;
    let own = kept.own;
    RecordInC {
        number,
        house,
        form: form_code(form),
        sex: kept.sex,
        document_number_len: kept.number_len as u8,
        name_len: kept.name_len as u8,
        code,
        state,
        nationality,
        birth,
        expiry,
        document_number,
        name,
        own_len: kept.own_len as u8,
        own,
    }
}

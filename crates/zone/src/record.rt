// What the library keeps of a document. Names, numbers and codes are characters; places past a length are fillers.
// Each length stands beside a room of fixed size: there is no heap, and C has them so.
ghost use Rattle.std.specs.Prelude.{◌≡◌};
ghost use Rattle.zone.specs.Record.{blank, trimmed_length};

use crate::alphabet::FILLER;
use crate::form::Form;

#[derive(Clone, Copy)]
pub struct Record {
    pub form: Form,
    pub code: [u8; Form::CODE],
    pub state: [u8; Form::STATE],
    pub number: [u8; Form::NUMBER],
    pub number_len: usize,
    pub nationality: [u8; Form::STATE],
    pub birth: [u8; Form::DATE],
    pub sex: u8,
    pub expiry: [u8; Form::DATE],
    pub name: [u8; Form::NAME],
    pub name_len: usize,
    // The issuer's own data: a personal number, or what a State puts into an optional field.
    pub own: [u8; Form::OWN],
    pub own_len: usize,
}

impl Record {
    // The record that every refusal gives.
    pub fn blank() -> Record
        ensures { result ≡ blank }
    {
        Record {
            form: Form::Td1,
            code: [FILLER; Form::CODE],
            state: [FILLER; Form::STATE],
            number: [FILLER; Form::NUMBER],
            number_len: 0,
            nationality: [FILLER; Form::STATE],
            birth: [FILLER; Form::DATE],
            sex: FILLER,
            expiry: [FILLER; Form::DATE],
            name: [FILLER; Form::NAME],
            name_len: 0,
            own: [FILLER; Form::OWN],
            own_len: 0,
        }
    }
}

// The length without trailing fillers, looked for from the end: eight at a time, and then one by one.
pub fn trimmed_length(s: &[u8]) -> usize
    ensures { result ≡ trimmed_length s.now }
{
    let mut rest = s;
    while let Some(shorter) = rest.strip_suffix(&[FILLER; 8]) {
        rest = shorter;
    }
    while let Some(shorter) = rest.strip_suffix(&[FILLER]) {
        rest = shorter;
    }
    rest.len()
}

// What C receives of an entry, laid out as include/lamphudet.h declares it.
use zone::form::Form;

// What an entry holds: number 0, the house and the record; or 18, house 0 and the blank record. Places past a length are fillers.
#[repr(C)]
#[derive(Clone, Copy)]
pub struct RecordInC {
    pub number: u32,
    pub house: u32,
    pub form: u8,
    pub sex: u8,
    pub document_number_len: u8,
    pub name_len: u8,
    pub code: [u8; Form::CODE],
    pub state: [u8; Form::STATE],
    pub nationality: [u8; Form::STATE],
    pub birth: [u8; Form::DATE],
    pub expiry: [u8; Form::DATE],
    pub document_number: [u8; Form::NUMBER],
    pub name: [u8; Form::NAME],
    // The issuer's own data, which C has as data.
    pub own_len: u8,
    pub own: [u8; Form::OWN],
}

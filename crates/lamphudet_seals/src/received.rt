// What C receives, laid out as include/lamphudet_seals.h declares it.
pub use border::received::StretchInC;
use zone::form::Form;

#[repr(C)]
#[derive(Clone, Copy)]
pub struct DayInC {
    pub year: u16,
    pub month: u8,
    pub day: u8,
}

// Number 0, how many octets of entry were written, and what the seal says; or the refusal's number and its place, over blank
// fields. With a wrong check digit, 9, stands the digit that was expected, and 255 else.
#[repr(C)]
#[derive(Clone, Copy)]
pub struct SealInC {
    pub number: u32,
    pub expected: u32,
    pub value: u64,
    pub signature: StretchInC,
    pub issued: DayInC,
    pub signed_on: DayInC,
    pub version: u8,
    pub definition: u8,
    pub category: u8,
    pub reference_len: u8,
    pub country: [u8; Form::STATE],
    pub signer: [u8; 4],
    pub reference: [u8; 255],
}

// A seal's header as it is given to write one. Places past the reference's length are fillers.
#[repr(C)]
#[derive(Clone, Copy)]
pub struct HeaderInC {
    pub issued: DayInC,
    pub signed_on: DayInC,
    pub version: u8,
    pub definition: u8,
    pub category: u8,
    pub reference_len: u8,
    pub country: [u8; Form::STATE],
    pub signer: [u8; 4],
    pub reference: [u8; 255],
}

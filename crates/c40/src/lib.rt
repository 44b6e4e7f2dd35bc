// C40, the encoding of text in seals: three characters of A-Z, 0-9 and space in two octets.
#![tactic(auto)]

pub mod field;
pub mod image;
mod measure;
mod pair;
mod write;

// The entry under which a line's session keeps a record: written from a house and a record.
#![tactic(auto)]

pub mod codes;
pub mod enter;
pub mod places;
pub mod write;

// Writing the text of a record.
#![tactic(auto)]

mod fields;
mod number;
mod parts;
mod whole;
pub mod write;

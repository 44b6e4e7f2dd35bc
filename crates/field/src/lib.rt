// The field rules of document 01, "The text", each a test on a field's characters alone.
#![tactic(auto)]

pub mod code;
pub mod date;
pub mod letters;

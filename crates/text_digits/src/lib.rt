// The document number of a text, short or long, and the check digits in text order.
#![tactic(auto)]

pub mod digits;
pub mod number;
pub mod order;

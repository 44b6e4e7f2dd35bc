// The machine readable zone, without its rules: the alphabet, the forms with their layouts, and the record.
#![tactic(auto)]

pub mod alphabet;
pub mod codes;
pub mod form;
pub mod record;
pub mod taken;

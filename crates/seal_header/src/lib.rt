// The header of a seal: its fields from the left, and what is handed out of them.
#![tactic(auto)]

pub mod header;
pub mod reference;

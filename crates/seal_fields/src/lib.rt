// What the fields of a seal are made of: days, hexadecimal characters, spaces for fillers.
#![tactic(auto)]

pub mod day;
pub mod hex;
pub mod spaces;

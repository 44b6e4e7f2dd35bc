// The border to C: what a host receives of an answer in numbers.
#![tactic(auto)]

pub mod answer;
pub mod detail;
pub mod received;

// Words of 32 bits, as FIPS 180-4 computes on them.
#![tactic(auto)]

pub mod words;

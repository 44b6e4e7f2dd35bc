// Units of six bits, each in an octet of its own, packed to octets: four of them are three octets. Packed without a condition:
// where there is no room, nothing is.
#![tactic(auto)]

pub mod pack;

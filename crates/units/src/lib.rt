// Units of six bits, each in an octet of its own: four of them are three octets. Unpacked without a condition: where there is no
// room, nothing is.
#![tactic(auto)]

pub mod unpack;

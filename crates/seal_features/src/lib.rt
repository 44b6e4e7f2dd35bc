// What stands in a printed seal behind its header: features, and the signature.
#![tactic(auto)]

pub mod features;
pub mod signature;

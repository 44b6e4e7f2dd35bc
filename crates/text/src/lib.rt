// Reading the text of a machine readable zone.
#![tactic(auto)]

mod fields;
pub mod read;
mod record;

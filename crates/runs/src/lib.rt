// A run of entries, read one by one.
#![tactic(auto)]

mod characters;
mod places;
mod record;
pub mod run;

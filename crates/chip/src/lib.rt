// A presentation: EF.COM, the content of the security object and group files, as a chip lends them, decided stage by stage.
#![tactic(auto)]

mod files;
pub mod group_file;
mod group_one;
pub mod presentation;
mod versions;

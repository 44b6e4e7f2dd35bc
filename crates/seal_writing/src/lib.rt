// Writing the seal of an emergency document.
#![tactic(auto)]

mod carried;
mod parts;
mod text;
mod whole;
pub mod write;

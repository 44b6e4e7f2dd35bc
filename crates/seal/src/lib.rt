// A printed seal of an emergency document: header, features, signature, and the text that one of the features holds.
#![tactic(auto)]

pub mod read;

// No code: the theorems about the store's nightly list.
// specs/ says which lists are accepted, with houses and records and without the reader, and where one is refused; proofs/ the
// theorems.
#![tactic(auto)]

// The demands on texts, as theorems about the definitions: there is no code here. What each says is in specs/, and
// proofs/ shows it.
#![tactic(auto)]

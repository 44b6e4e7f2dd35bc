// Theorems about seals that are written, and no code: what is demanded is in specs/, the proofs in proofs/.
#![tactic(auto)]

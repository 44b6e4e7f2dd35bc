// Theorems on the check digit: when check digits may be added, and which slips it finds. There is no code here.
#![tactic(auto)]

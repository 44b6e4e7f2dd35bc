// No code: the theorems about group 11 and the full name.
// specs/ says what a file of group 11 is, with its elements and without the reader, and its checks one after the other; proofs/
// the theorems.
#![tactic(auto)]

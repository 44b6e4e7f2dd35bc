// No code: what rows of checks decide, for the theorems about presentations and seals.
// specs/ has elements said of the octets alone, proofs/ the laws.
#![tactic(auto)]

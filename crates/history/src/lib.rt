// What stands only because an earlier paper said otherwise, as theorems about the definitions: there is no code here, and nothing
// is built on it. Of each request that changes no answer specs/ has today's reader with that one thing otherwise, and proofs/
// that both answer the same.
#![tactic(auto)]

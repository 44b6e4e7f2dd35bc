// What is demanded of every call that writes an entry, whatever it read, as theorems about the definitions: there is no code
// here.
#![tactic(auto)]

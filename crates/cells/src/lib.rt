// Numbers in cells of bits, one behind the other, as definitions and their laws: there is no code here.
#![tactic(auto)]

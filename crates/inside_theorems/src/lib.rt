// No code: the theorems about the inside of a group's file.
// specs/ says what a whole file is, with trees and without the reader, and its checks one after the other; proofs/ the theorems.
#![tactic(auto)]

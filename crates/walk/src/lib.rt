// The lines that walks by hand over a record lent by `&mut` have in common: proofs alone, and no code. (No function needs such a walk now.)
#![tactic(auto)]

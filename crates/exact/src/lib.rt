// The exact value of document 01 and the laws that hold of it: definitions in specs/, theorems in
// proofs/, and no code.
#![tactic(auto)]

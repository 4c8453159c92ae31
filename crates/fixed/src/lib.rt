// What the 64-bit functions reckon, in crate reckon: the definitions are in specs/, proofs/ says how
// near they lie to the exact value, and there is no code.
#![tactic(auto)]

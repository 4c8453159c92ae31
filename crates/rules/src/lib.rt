// The published rules for what a request leaves blank, the rupture distance apart: exact and as the
// 64-bit functions of crate estimate reckon them. The definitions are in specs/, proofs/ says how near
// the two lie, and there is no code.
#![tactic(auto)]

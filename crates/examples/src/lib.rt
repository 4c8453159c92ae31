// Document 01's first twelve examples as a single list: stated in specs/, proved in proofs/, and no
// code.
#![tactic(auto)]

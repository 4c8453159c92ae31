// The published estimates of what a request leaves blank, the rupture distance apart: source
// document 000's rules for the source and the site. Each function equals a definition of crate rules,
// whose proofs/ say how near that lies to the rule. Lengths and depths are whole metres, rounded down.
#![tactic(auto)]

mod site;
mod source;

pub use site::{basin_from_vs30, basin_from_z10, basin_from_z15};
pub use source::{dip_estimate, hypocentre_estimate, top_estimate, width_estimate};

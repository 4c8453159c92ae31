// The rupture distance: the equations of Kaklamanos, Baise and Boore (2011), exact and as the 64-bit
// functions of crate rupture reckon them. The definitions are in specs/, and proofs/ says how near the
// two lie.
#![tactic(auto)]

// Where the site lies on the plan: RX across the strike and RY along it, in tenths of a millimetre.
#[derive(Clone, Copy)]
pub struct Place {
    pub x: u64,
    pub y: u64,
}

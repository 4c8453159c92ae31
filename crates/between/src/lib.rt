// A row between two tabulated periods: what is drawn between their fine rows. The definitions are in
// specs/, and proofs/ says how near the reported figures lie to the exact ones.

#![tactic(auto)]

// A row on the line between two fine rows, in units of 10^-9: ln median and the sigmas intra-event,
// inter-event, total and the arbitrary component's.
#[derive(Clone, Copy)]
pub struct Drawn {
    pub ln: i64,
    pub intra: u64,
    pub inter: u64,
    pub total: u64,
    pub arbitrary: u64,
}

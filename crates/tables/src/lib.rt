// The numbers of the model: Tables 2 and 3 of Campbell and Bozorgnia 2008, constants of the program.
// Every number is in thousandths, save k1, which is in m/s.

#![tactic(auto)]

mod periods;
mod table2;
mod table3;

pub use periods::period_at;
pub use table2::coefficients_at;
pub use table3::deviations_at;

// How many measures there are: the 21 periods, PGA, PGV, PGD. A measure is told by its number: a type for it would
// have each loop and each call from outside make one first, and be no plainer.
pub const MEASURES: usize = 24;

// How many of them, from the first on, are periods.
pub const PERIODS: usize = 21;

// PGA's number among them.
pub const PGA: usize = 21;

// A row of Table 2, each field under the paper's name. Plain: the definitions make one past the last row too.
#[derive(Clone, Copy)]
pub struct Coefficients {
    pub c0: i16,
    pub c1: i16,
    pub c2: i16,
    pub c3: i16,
    pub c4: i16,
    pub c5: i16,
    pub c6: u16,
    pub c7: i16,
    pub c8: i16,
    pub c9: i16,
    pub c10: i16,
    pub c11: i16,
    pub c12: i16,
    pub k1: u16,
    pub k2: i16,
    pub k3: i16,
}

// A row of Table 3: the intra-event, inter-event and component deviations, the total and the
// arbitrary component's of a site with a linear response, and the correlation with PGA.
#[derive(Clone, Copy)]
pub struct Deviations {
    pub s: u16,
    pub t: u16,
    pub sC: u16,
    pub sT: u16,
    pub sArb: u16,
    pub rho: u16,
}

// The ground-motion model of Campbell and Bozorgnia 2008: what it is told and what it reports. The
// definitions are in specs/, and proofs/ says how near the reported figures lie to the exact ones.
#![tactic(auto)]

use request::Style;

// The completed figures that the model reads: magnitude in hundredths, Vs30 in m/s, dip in degrees,
// lengths and depths in metres. Plain, as the rows that follow: the definitions make one of any request, in range
// or not, so that an invariant would ask each of them for a proof.
#[derive(Clone, Copy)]
pub struct Scenario {
    pub m: u64,
    pub style: Style,
    pub vs30: u64,
    pub dip: u64,
    pub ztor: u64,
    pub rjb: u64,
    pub rrup: u64,
    pub z25: u64,
}

// One measure before it is rounded for the report, in units of 10^-9: ln median and the variances of the
// intra-event, the total and the arbitrary component's sigma. The inter-event sigma is Table 3's t, in
// thousandths.
#[derive(Clone, Copy)]
pub struct Fine {
    pub ln: i64,
    pub intra: u64,
    pub t: u64,
    pub total: u64,
    pub arbitrary: u64,
}

// The reported figures of one measure: ln median and the four sigmas in millionths, the median in
// 10^-10 of g, cm/s or cm.
#[derive(Clone, Copy)]
pub struct Row {
    pub ln: i64,
    pub median: u64,
    pub intra: u64,
    pub inter: u64,
    pub total: u64,
    pub arbitrary: u64,
}

// What a sheet shows of a row: one sigma beside ln median and the median.
#[derive(Clone, Copy)]
pub struct Shown {
    pub ln: i64,
    pub median: u64,
    pub sigma: u64,
}

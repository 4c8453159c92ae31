// The sigmas (14 to 18), from variances in units of 10^-9. Each function equals a definition of model's
// specs/Fixed.
#![tactic(auto)]

mod known;

ghost use Rattle.std.specs.Prelude.{◌≡◌, ℕ, ◌≤◌, ◌<◌, nat_abs};
ghost use Rattle.exact.specs.Near.{up};
ghost use Rattle.model.specs.Fixed.{squared_fixed, intra_variance_fixed, sigma_of};
ghost use Rattle.tables.specs.Tables.{measures, deviations_at};
ghost use Rattle.tables.specs.OfTables.{OfTable3};

use known::{cross_at, linear_arbitrary_at, linear_total_at};
use reckon::{E9, mul_div, whole_root};
use tables::Deviations;

// One, in units of 10^-9, to divide signed numbers by.
const ONE: i64 = E9 as i64;

// sigma_lnAB: PGA's at the base of the site profile, which Table 3 alone fixes; held to it by a computed
// test.
const ROCK: i64 = 372_134_384;

// A deviation of Table 3 squared, in units of 10^-9.
pub fn squared(n: u16) -> u64
    requires { n ≤ 1000 }
    ensures { result ≡ squared_fixed n }
{
    let n = u64::from(n);
    n * n * 1_000
}

// The intra-event variance (15) of a measure. On a linear site alpha is 0 and nothing is added to s².
// A number i and its row d stay two parameters, here and below: a struct of both would be made for a call or
// two, and be no plainer.
pub fn intra_variance(i: usize, d: Deviations, alpha: i64) -> u64
    requires { (i < measures) × (d ≡ deviations_at i) × (nat_abs alpha ≤ 2671000367) }
    ensures { result ≡ up (intra_variance_fixed d alpha) }
{
    let linear = squared(d.s);
    if alpha == 0 {
        return linear;
    }
    let y = mul_div(ROCK, alpha, ONE);
    let more = linear as i64 + mul_div(y, y + cross_at(i) as i64, ONE);
    more.max(0) as u64
}

// The root of a variance, to the nearest millionth.
fn sigma_of(v: u64) -> u64
    requires { v ≤ 2400000000 }
    ensures { result ≡ sigma_of v }
{
    (whole_root(4_000 * v) + 1) / 2
}

// The same, where the root is known if the variance is a linear site's.
fn sigma_or<F: FnOnce() -> u64>(v: u64, linear: u64, known: F) -> u64
    requires in_range { v ≤ 2400000000 }
    requires callable { F.IsAlwaysCallable known }
    requires known { (n : ℕ) → F.post known n → n ≡ sigma_of linear }
    ensures { result ≡ sigma_of v }
{
    if v == linear { known() } else { sigma_of(v) }
}

// The intra-event sigma (15). Where s² is its variance it is s, and no root is taken.
#[tactic(auto, using(crate::proofs::LinearSite::whole_sigma))]
pub fn intra_of(d: Deviations, v: u64) -> u64
    requires { OfTable3 d × (v ≤ 2400000000) }
    ensures { result ≡ sigma_of v }
{
    sigma_or(v, squared(d.s), || u64::from(d.s) * 1_000)
}

// The total sigma (16) of a measure, known where its variance is a linear site's.
#[tactic(auto, unfolding(crate::specs::Linear::linear_total))]
pub fn total_of(i: usize, d: Deviations, v: u64) -> u64
    requires { (i < measures) × (d ≡ deviations_at i) × (v ≤ 2400000000) }
    ensures { result ≡ sigma_of v }
{
    sigma_or(
        v,
        squared(d.s) + squared(d.t),
        || u64::from(linear_total_at(i)),
    )
}

// The arbitrary component's (18), likewise.
#[tactic(auto, unfolding(crate::specs::Linear::linear_arbitrary))]
pub fn arbitrary_of(i: usize, d: Deviations, v: u64) -> u64
    requires { (i < measures) × (d ≡ deviations_at i) × (v ≤ 2400000000) }
    ensures { result ≡ sigma_of v }
{
    sigma_or(
        v,
        squared(d.s) + squared(d.t) + squared(d.sC),
        || u64::from(linear_arbitrary_at(i)),
    )
}

// The row at any period, reckoned: at a tabulated one that of its measure, between two on the line
// between their fine rows. Each function equals a definition of between's specs/Fixed, of which
// between's proofs/ say how near it lies to the exact value.
#![tactic(auto)]

mod weight;

ghost use Rattle.std.specs.Prelude.{◌≡◌, ◌≤◌};
ghost use Rattle.model.specs.Accuracy.{InRange};
ghost use Rattle.between.specs.Periods.{covered, last_up_to};
ghost use Rattle.between.specs.Fixed.{to_millionths, drawn_report, row_at, DrawnInRange};

use between::Drawn;
use measures::fine_at;
use model::{Row, Scenario};
use reckon::{exp_fixed, round_div};
use reports::row_at;
use tables::{PERIODS, period_at};
use weight::Weight;

// The shortest and the longest tabulated period, in thousandths of a second.
const SHORTEST: u64 = 10;

const LONGEST: u64 = 10_000;

// Whether a period lies between these two, or is one of them.
pub fn is_covered(t: u64) -> bool
    ensures { result ≡ covered t }
{
    (SHORTEST..=LONGEST).contains(&t)
}

// The measure of the last tabulated period that is not longer than t.
fn last_up_to(t: u64) -> usize
    requires { 10 ≤ t }
    ensures { result ≡ last_up_to t }
{
    (1..PERIODS)
        .position(|n| t < period_at(n))
        .unwrap_or(PERIODS - 1)
}

// A sigma to the nearest millionth.
fn to_millionths(s: u64) -> u64
    requires { s ≤ 1549200000 }
    ensures { result ≡ to_millionths s }
{
    (s + 500) / 1_000
}

// That row, rounded for the report.
#[tactic(auto, unfolding(between::specs::Fixed::drawn_report))]
fn drawn_report(d: Drawn) -> Row
    requires { DrawnInRange d }
    ensures { result ≡ drawn_report d }
{
    Row {
        ln: round_div(d.ln, 1_000),
        median: exp_fixed(d.ln).max(1),
        intra: to_millionths(d.intra),
        inter: to_millionths(d.inter),
        total: to_millionths(d.total),
        arbitrary: to_millionths(d.arbitrary),
    }
}

// The row at a period from the shortest tabulated one to the longest.
pub fn row_at_period(t: u64, x: Scenario) -> Row
    requires { (10 ≤ t) × (t ≤ 10000) × InRange x }
    ensures { result ≡ row_at t x }
{
    let i = last_up_to(t);
    let t1 = period_at(i);
    if t1 == t {
        return row_at(i, x);
    }
    let t2 = period_at(i + 1);
    let w = Weight::of(t, t1, t2);
    drawn_report(w.drawn_between(fine_at(i, x), fine_at(i + 1, x)))
}

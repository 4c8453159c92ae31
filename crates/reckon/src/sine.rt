// Sine and cosine of whole degrees, from the series; no list is stored.
ghost use Rattle.std.specs.Prelude.{◌≡◌, ◌+◌, ◌*◌, ◌≤◌, pos};
ghost use Rattle.exact.specs.Series.{alternating};
ghost use Rattle.fixed.specs.Fixed.{E9, sin_acute, sin_fixed, cos_fixed};

use crate::units::E9;

// Pi in units of 10^-16, and 180 degrees in units that bring a product with it to 10^-9.
const PI16: u64 = 31_415_926_535_897_932;

const HALF_TURN: u64 = 1_800_000_000;

// t - t w/(d (d + 1)) + .., of n terms, each at most the one before: so no difference is negative. A recursion
// as the definition is: a loop would carry each term's sign beside it, and be no plainer.
fn alternate(w: u64, t: u64, d: u64, n: u64) -> u64
    requires { (w ≤ 3 * E9) × (t ≤ 2 * E9) × (2 ≤ d) × (d + 2 * n ≤ 100) }
    ensures { (pos result ≡ alternating E9 w t d n) × (result ≤ t) }
{
    if n == 0 {
        return 0;
    }
    t - alternate(w, t * w / E9 / (d * (d + 1)), d + 2, n - 1)
}

// From 0 to 90 degrees: seven terms of x - x^3/6 + ..
#[tactic(auto, unfolding(fixed::specs::Fixed::sin_acute))]
fn sin_acute(d: u64) -> u64
    requires { d ≤ 90 }
    ensures { pos result ≡ sin_acute d }
{
    let x = d * PI16 / HALF_TURN;
    alternate(x * x / E9, x, 2, 7)
}

// The sine, from 0 to 180 degrees.
#[tactic(auto, unfolding(fixed::specs::Fixed::sin_fixed))]
pub fn sin_deg(d: u64) -> u64
    requires { d ≤ 180 }
    ensures { pos result ≡ sin_fixed d }
{
    sin_acute(d.min(180 - d))
}

// The size of the cosine, from 0 to 180 degrees.
#[tactic(auto, using(crate::proofs::SineTerms::cosine_of))]
pub fn cos_deg(d: u64) -> u64
    requires { d ≤ 180 }
    ensures { pos result ≡ cos_fixed d }
{
    sin_acute(d.abs_diff(90))
}

// The exponential.
ghost use Rattle.std.specs.Prelude.{◌≡◌, ◌*◌, ◌≤◌, ◌<◌};
ghost use Rattle.exact.specs.Near.{up, dn};
ghost use Rattle.fixed.specs.Fixed.{exp_one, exp_two, exp_unit, exp_fixed};

use crate::units::{E10, LN2};

// e^r, r from 0 to ln 2, both in units of 10^-10: twelve terms. The third is made from a quarter of
// r, since r r would not fit; in the others the two divisions are one, which is quicker.
fn exp_unit(r: u64) -> u64
    requires { r < exp_two }
    ensures { (result ≡ exp_unit r) × (result ≤ 2 * exp_one) }
{
    let mut term = r / 4 * r / (E10 / 2);
    let mut sum = E10 + r;
    for k in 3..13 {
        sum += term;
        term = term * r / (E10 * k);
    }
    sum
}

// e^x in units of 10^-10. 32 ln 2 are added first, so that x is not negative, and 32 powers of two
// are taken out with the last step.
pub fn exp_fixed(x: i64) -> u64
    requires { (up x ≤ 20000000000) × (dn x ≤ 22000000000) }
    ensures { result ≡ exp_fixed x }
{
    let y = (10 * x + 32 * LN2 as i64) as u64;
    let twos = y / LN2;
    let unit = exp_unit(y % LN2);
    if twos < 32 {
        unit >> (32 - twos)
    } else {
        unit << (twos - 32)
    }
}

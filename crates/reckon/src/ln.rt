// The natural logarithm of a fixed-point number and of a quotient of two whole numbers.
ghost use Rattle.std.specs.Prelude.{◌≡◌, ◌+◌, ◌*◌, ◌/◌, ◌^◌, ◌≤◌, ◌<◌, pos, ◌-ℤ◌};
ghost use Rattle.exact.specs.Series.{ln_terms};
ghost use Rattle.fixed.specs.Fixed.{E9, ln_two, ln_ratio, ln_narrow, ln_fixed, ln_quotient};

use crate::units::{E9, E10, E12, LN2};

// ln 8 in units of 10^-9.
const LN8: i64 = 2_079_441_541;

// z + z^3/3 + z^5/5 + .., of so many terms; the square of z is square/whole. Put into both its callers, so that
// the division by a whole that is a constant stays a product.
#[inline(always)]
fn ln_terms(whole: u64, square: u64, z: u64, terms: u64) -> u64
    requires { (1 ≤ whole) × (square ≤ whole) × (z * square < 2 ^ 64) × (terms ≤ 100) × (ln_terms whole square z 1 terms < 2 ^ 63) }
    ensures { result ≡ ln_terms whole square z 1 terms }
{
    let mut power = z;
    let mut sum = 0;
    for k in 0..terms {
        sum += power / (2 * k + 1);
        power = power * square / whole;
    }
    sum
}

// ln (p/q), p/q from 1 to 2, in units of 10^-10: nine terms of 2 (z + z^3/3 + ..), z = (p-q)/(p+q).
// The tenth would not reach a unit.
fn ln_ratio(p: u64, q: u64) -> u64
    requires { (1 ≤ q) × (q ≤ E9) × (q ≤ p) × (p ≤ 2 * q) }
    ensures { (result ≡ ln_ratio p q) × (result ≤ 7000000000) }
{
    let z = (p - q) * E10 / (p + q);
    2 * ln_terms(E10, z * z / E10, z, 9)
}

// ln (p/q), p/q from 1 to 2 and p up to 10,000, in units of 10^-10, more precise: eleven terms of the same
// series. The square of z is a quotient of two whole numbers, and each power of z stands in units of 10^-12.
pub fn ln_narrow(p: u64, q: u64) -> u64
    requires { (1 ≤ q) × (q ≤ p) × (p ≤ 2 * q) × (p ≤ 10000) }
    ensures { (result ≡ ln_narrow p q) × (result ≤ 6931471806) }
{
    let square = (p - q) * (p - q);
    let whole = (p + q) * (p + q);
    2 * ln_terms(whole, square, (p - q) * E12 / (p + q), 11) / 100
}

// A logarithm from 0 to ln 2, in units of 10^-10, with powers of two put to it and the three that were put in
// taken out.
fn less_ln8(twos: u64, ln: u64) -> i64
    requires { (twos ≤ 18) × (ln ≤ 7000000000) }
    ensures { result ≡ pos ((twos * ln_two + ln) / 10) -ℤ LN8 }
{
    ((twos * LN2 + ln) / 10) as i64 - LN8
}

// ln x, from 1/8 up. Three powers of two are put in first, so that no sign comes up before the end.
pub fn ln_fixed(x: u64) -> i64
    requires { (E9 ≤ 8 * x) × (x < 65536 * E9) }
    ensures { result ≡ ln_fixed x }
{
    let mut y = 8 * x;
    let mut twos = 0;
    while 2 * E9 <= y {
        y /= 2;
        twos += 1;
    }
    less_ln8(twos, ln_ratio(y, E9))
}

// ln (p/q), p/q from 1/8 to 8. Doubling loses no bit as halving in ln_fixed does, so the two loops are no twins.
pub fn ln_quotient(p: u64, q: u64) -> i64
    requires { (1 ≤ q) × (q ≤ 1000000) × (q ≤ 8 * p) × (p ≤ 8 * q) }
    ensures { result ≡ ln_quotient p q }
{
    let top = 8 * p;
    let mut bottom = q;
    let mut twos = 0;
    while 2 * bottom <= top {
        bottom *= 2;
        twos += 1;
    }
    less_ln8(twos, ln_ratio(top, bottom))
}

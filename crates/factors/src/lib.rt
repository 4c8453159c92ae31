// The hanging wall's four factors (6) and the basin's factor below 3 km (12), the same for every
// measure, in units of 10^-9. Each function equals a definition of model's specs.
#![tactic(auto)]

ghost use Rattle.std.specs.Prelude.{◌≡◌, ◌≤◌};
ghost use Rattle.model.specs.Equations.{f_hng_m, f_hng_z, f_hng_dip};
ghost use Rattle.model.specs.Accuracy.{InRange};
ghost use Rattle.model.specs.Fixed.{wall_distance_fixed, f_hng_r_fixed, wall_fixed, deep_fixed};

use model::Scenario;
use reckon::{E9, exp_fixed, whole_root};

// A request's completed figures in their ranges, and what is worked out once for them: the product of the
// hanging wall's factors, and the basin's.
#[derive(Clone, Copy)]
pub struct Factors {
    pub x: Scenario,
    pub wall: u64,
    pub deep: u64,
    pub ghost in_range: { InRange x },
    pub ghost wall_is: { wall ≡ wall_fixed x },
    pub ghost deep_is: { deep ≡ deep_fixed x.z25 },
}

// Up to where (7) counts a rupture's top as shallow, in metres.
const KILOMETRE: u64 = 1_000;

// e^-0.75.
const DEEPEST: u64 = 472_366_552;

// The distance that divides (7), in tenths of a millimetre.
fn wall_distance(ztor: u64, rjb: u64, rrup: u64) -> u64
    requires { (rjb ≤ 200000) × (rrup ≤ 200000) }
    ensures { result ≡ wall_distance_fixed ztor rjb rrup }
{
    let rupture = rrup * 10_000;
    if ztor < KILOMETRE {
        return rupture.max(whole_root((rjb * rjb + 1_000_000) * 100_000_000));
    }
    rupture
}

// The factor of distance, on both sides of the fault (7).
fn f_hng_r(ztor: u64, rjb: u64, rrup: u64) -> u64
    requires { (rjb ≤ 200000) × (rrup ≤ 200000) }
    ensures { result ≡ f_hng_r_fixed ztor rjb rrup }
{
    if rjb == 0 {
        return E9;
    }
    let d = wall_distance(ztor, rjb, rrup);
    let plan = rjb * 10_000;
    // No saturating_sub: d may be 0 here, and then nothing is to be divided by it.
    if d < plan {
        return 0;
    }
    (d - plan) * E9 / d
}

// The factor of magnitude, in hundredths (8).
fn f_hng_m(m: u64) -> u64
    ensures { result ≡ f_hng_m m }
{
    2 * (m.clamp(600, 650) - 600)
}

// The factor of depth, in parts of 20000 (9).
fn f_hng_z(ztor: u64) -> u64
    requires { ztor ≤ 15000 }
    ensures { result ≡ f_hng_z ztor }
{
    20_000 - ztor
}

// The factor of dip, in parts of 20 (10).
fn f_hng_dip(dip: u64) -> u64
    requires { dip ≤ 90 }
    ensures { result ≡ f_hng_dip dip }
{
    90 - dip.max(70)
}

// The product of the four.
fn wall_of(x: Scenario) -> u64
    requires { InRange x }
    ensures { result ≡ wall_fixed x }
{
    f_hng_r(x.ztor, x.rjb, x.rrup) * (f_hng_m(x.m) * f_hng_z(x.ztor) * f_hng_dip(x.dip))
        / 40_000_000
}

// e^-0.75 (1 - e^(-0.25 (Z - 3))), nothing down to 3 km.
fn deep_of(z: u64) -> u64
    requires { z ≤ 10000 }
    ensures { result ≡ deep_fixed z }
{
    if z <= 3_000 {
        return 0;
    }
    let fall = (z - 3_000) * 250_000;
    DEEPEST * (E9 - exp_fixed(0 - fall as i64) / 10) / E9
}

// Both, of a request.
pub fn factors_of(x: Scenario) -> Factors
    requires { InRange x }
    ensures { result.x ≡ x }
{
    Factors {
        x,
        wall: wall_of(x),
        deep: deep_of(x.z25),
    }
}

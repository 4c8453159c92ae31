// The site: Z2.5 from Z1.5, from Z1.0 or from Vs30.
ghost use Rattle.std.specs.Prelude.{◌≡◌, ◌≤◌};
ghost use Rattle.rules.specs.Rules.{basin_from_z15, extrapolated, basin_from_z10};
ghost use Rattle.rules.specs.Fixed.{ln_z10_fixed, basin_fixed};

use reckon::{E10, exp_fixed, ln_quotient, mul_div};

// The last Vs30, in m/s, of equation 23's second rule, which the third does not join.
const JUMP: u64 = 500;

// Z2.5 in m from Z1.5 (equation 25).
pub fn basin_from_z15(z: u64) -> u64
    requires { z ≤ 10000 }
    ensures { result ≡ basin_from_z15 z }
{
    636 + 1_549 * z / 1_000
}

// Z2.5 from Z1.0, both in units of which u are a metre (equation 26).
fn extrapolate(u: u64, z: u64) -> u64
    requires { (u ≤ 10000000000) × (z ≤ 10000000000000) }
    ensures { result ≡ extrapolated u z }
{
    519 * u + 3_595 * z / 1_000
}

// Z2.5 in m from Z1.0.
pub fn basin_from_z10(z: u64) -> u64
    requires { z ≤ 10000 }
    ensures { result ≡ basin_from_z10 z }
{
    extrapolate(1, z)
}

// ln of Z1.0 in m, in units of 10^-9, from Vs30 (equation 23).
fn ln_z10(v: u64) -> i64
    requires { (150 ≤ v) × (v ≤ 1500) }
    ensures { result ≡ ln_z10_fixed v }
{
    if v < 180 {
        6_745_000_000
    } else if v <= JUMP {
        6_745_000_000 - mul_div(135, ln_quotient(v, 180), 100)
    } else {
        5_394_000_000 - mul_div(448, ln_quotient(v, 500), 100)
    }
}

// Z2.5 in m from Vs30.
pub fn basin_from_vs30(v: u64) -> u64
    requires { (150 ≤ v) × (v ≤ 1500) }
    ensures { result ≡ basin_fixed v }
{
    extrapolate(E10, exp_fixed(ln_z10(v))) / E10
}

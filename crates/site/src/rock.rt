// The rock's PGA, once for a request, with what is made of it.
ghost use Rattle.std.specs.Prelude.{◌≡◌, ◌+◌, ◌≤◌};
ghost use Rattle.fixed.specs.Fixed.{ln_fixed};
ghost use Rattle.tables.specs.Tables.{PGA};
ghost use Rattle.model.specs.Fixed.{rock_pga_fixed, site_c_fixed, share_fixed};

use crate::C;
use reckon::{E9, exp_fixed, ln_fixed};
use terms::Measure;

// c, in units of 10^-9.
const SITE_C: u64 = C * 10_000_000;

// PGA's site term (11) at 1100 m/s, in units of 10^-9, which Table 2 alone fixes; held to it by a computed
// test.
const SITE_1100: i64 = -82_069_920;

// A1100 is `pga`; with it ln(A1100 + c) and A1100/(A1100 + c).
#[derive(Clone, Copy)]
pub struct Rock {
    pub pga: u64,
    pub log: i64,
    pub share: u64,
    pub ghost log_is: { log ≡ ln_fixed (pga + site_c_fixed) },
    pub ghost share_is: { share ≡ share_fixed pga site_c_fixed },
}

// a/(a + b).
pub fn share_of(a: u64, b: u64) -> u64
    requires { (a ≤ 1490000000) × (1 ≤ b) × (b ≤ 1900000000) }
    ensures { result ≡ share_fixed a b }
{
    a * E9 / (a + b)
}

// The rock of a request, from its PGA: A1100 is the median PGA at Vs30 = 1100.
pub fn rock_of(m: &Measure) -> Rock
    requires { m.now.i ≡ PGA }
    ensures { result.pga ≡ rock_pga_fixed m.now.f.now.x }
{
    let pga = exp_fixed(m.ln_sum(SITE_1100)) / 10;
    Rock {
        pga,
        log: ln_fixed(pga + SITE_C),
        share: share_of(pga, SITE_C),
    }
}

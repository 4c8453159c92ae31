// The site's response: A1100 and what is made of it, once for a request; what the measures of one k1
// share; the site's term (11) and alpha (17), in units of 10^-9. Each function equals a definition of
// model's specs/Fixed or of specs/Sharing.
#![tactic(auto)]

mod rock;

ghost use Rattle.std.specs.Prelude.{◌≡◌, ◌≤◌, ◌<◌, nat_abs};
ghost use Rattle.std.specs.Coded.{Coded-set};
ghost use Rattle.tables.specs.Tables.{measures};
ghost use Rattle.model.specs.Equations.{linear};
ghost use Rattle.model.specs.Fixed.{curve_of, f_site_fixed, alpha_fixed, rock_pga_fixed};
ghost use Rattle.site.specs.Sharing.{soil_of};

use reckon::{exp_fixed, ln_fixed, ln_quotient, mul_div};
use rock::share_of;
pub use rock::{Rock, rock_of};
use terms::Measure;

// c and n, in hundredths.
const C: u64 = 188;

const N: i64 = 118;

// What the measures of one k1 see of the soil: ln(V/k1), and below k1 by how much the logarithm and
// the share of A1100 differ from those on rock.
#[derive(Clone, Copy)]
pub struct Soil {
    pub ratio: i64,
    pub gain: i64,
    pub swing: i64,
}

// A measure with the soil of its k1.
#[derive(Clone, Copy)]
pub struct OnSoil<'a> {
    pub measure: Measure<'a>,
    pub soil: Soil,
    pub ghost soil_is: { soil ≡ soil_of measure.c.k1 measure.f.now.x } by { Coded-set soil-code soil (soil_of measure.c.k1 measure.f.now.x) },
}

// c (V/k1)^n, from ln(V/k1).
fn curve_of(ratio: i64) -> u64
    requires { (nat_abs ratio ≤ 2000000005) × (curve_of ratio ≤ 1900000000) }
    ensures { result ≡ curve_of ratio }
{
    C * exp_fixed(mul_div(N, ratio, 100)) / 1_000
}

// The soil of a measure's k1. From Vs30 = 1100 on the response stays the same.
fn soil_of(m: &Measure, rock: &Rock) -> Soil
    requires { rock.now.pga ≡ rock_pga_fixed m.now.f.now.x }
    ensures { result ≡ soil_of m.now.c.k1 m.now.f.now.x }
{
    let v = m.f.x.vs30;
    let k1 = u64::from(m.c.k1);
    let ratio = ln_quotient(v.min(1_100), k1);
    if k1 <= v {
        return Soil {
            ratio,
            gain: 0,
            swing: 0,
        };
    }
    let curve = curve_of(ratio);
    Soil {
        ratio,
        gain: ln_fixed(rock.pga + curve) - rock.log,
        swing: share_of(rock.pga, curve) as i64 - rock.share as i64,
    }
}

impl<'a> OnSoil<'a> {
    // A measure by itself.
    pub fn of(measure: Measure<'a>, rock: &Rock) -> Self
        requires { rock.now.pga ≡ rock_pga_fixed measure.f.now.x }
        ensures { (result.measure.i ≡ measure.entry.i) × (result.measure.f.now.x ≡ measure.entry.f.now.x) }
    {
        OnSoil {
            measure,
            soil: soil_of(&measure, rock),
        }
    }

    // Another measure of the request: it has this one's path where they are alike in c6, and its soil where
    // they are in k1, as `Measure::next` says of two functions.
    pub fn next(&self, i: usize, rock: &Rock) -> Self
        requires { (i < measures) × (rock.now.pga ≡ rock_pga_fixed self.now.measure.f.now.x) }
        ensures { (result.measure.i ≡ i) × (result.measure.f.now.x ≡ self.now.measure.f.now.x) }
    {
        let measure = self.measure.next(i);
        let soil = if measure.c.k1 == self.measure.c.k1 {
            self.soil
        } else {
            soil_of(&measure, rock)
        };
        OnSoil { measure, soil }
    }

    // c10 + k2 n, in units of 10^-5.
    fn linear(&self) -> i64
        ensures { result ≡ linear self.now.measure.c }
    {
        100 * i64::from(self.measure.c.c10) + N * i64::from(self.measure.c.k2)
    }

    // The term at the site (11).
    pub fn f_site(&self) -> i64
        ensures { let x = self.now.measure.f.now.x in result ≡ f_site_fixed self.now.measure.c x.vs30 (rock_pga_fixed x) }
    {
        let c = self.measure.c;
        if self.measure.f.x.vs30 < u64::from(c.k1) {
            return mul_div(i64::from(c.c10), self.soil.ratio, 1_000)
                + mul_div(i64::from(c.k2), self.soil.gain, 1_000);
        }
        mul_div(self.linear(), self.soil.ratio, 100_000)
    }

    // Alpha (17): there is no swing from k1 up.
    pub fn alpha(&self) -> i64
        ensures { let x = self.now.measure.f.now.x in result ≡ alpha_fixed self.now.measure.c x.vs30 (rock_pga_fixed x) }
    {
        mul_div(i64::from(self.measure.c.k2), self.soil.swing, 1_000)
    }
}

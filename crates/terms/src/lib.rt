// The terms of the median that read no soil, in units of 10^-9: magnitude, distance, style of faulting,
// hanging wall and basin. Each function equals a definition of model's specs/Fixed.
#![tactic(auto)]

ghost use Rattle.std.specs.Prelude.{◌≡◌, ◌≤◌, ◌<◌, nat_abs};
ghost use Rattle.std.specs.Coded.{Coded-set};
ghost use Rattle.tables.specs.Tables.{measures, coefficients_at};
ghost use Rattle.model.specs.Fixed.{ln_distance, f_mag_fixed, f_dis_fixed, f_flt_fixed, f_hng_fixed, f_sed_fixed, ln_sum};

use factors::Factors;
use reckon::{ln_fixed, mul_div};
use request::Style;
use tables::{Coefficients, coefficients_at};

// A measure of a request: its row of Table 2, and the logarithm of RRUP² + c6².
#[derive(Clone, Copy)]
pub struct Measure<'a> {
    pub f: &'a Factors,
    pub i: usize,
    pub c: Coefficients,
    pub path: i64,
    pub ghost below: { i < measures },
    pub ghost row: { c ≡ coefficients_at i } by { Coded-set c-code c (coefficients_at i) },
    pub ghost path_is: { path ≡ ln_distance c.c6 f.now.x.rrup },
}

// ln (RRUP² + c6²).
fn path_of(c6: u16, rrup: u64) -> i64
    requires { (4000 ≤ c6) × (c6 ≤ 9000) × (rrup ≤ 200000) }
    ensures { result ≡ ln_distance c6 rrup }
{
    let near = u64::from(c6);
    ln_fixed(1_000 * (rrup * rrup + near * near))
}

impl<'a> Measure<'a> {
    // A measure by its number.
    pub fn at(i: usize, f: &'a Factors) -> Self
        requires { i < measures }
        ensures { (result.i ≡ i) × (result.f.now.x ≡ f.now.x) }
    {
        let c = coefficients_at(i);
        Measure {
            f,
            i,
            c,
            path: path_of(c.c6, f.x.rrup),
        }
    }

    // Another measure of the request: it has this one's path, where they are alike in c6. `OnSoil` has its own,
    // by k1: one function for both would take the test and the making as closures, and be no plainer.
    pub fn next(&self, i: usize) -> Self
        requires { i < measures }
        ensures { (result.i ≡ i) × (result.f.now.x ≡ self.now.f.now.x) }
    {
        let c = coefficients_at(i);
        let path = if c.c6 == self.c.c6 {
            self.path
        } else {
            path_of(c.c6, self.f.x.rrup)
        };
        Measure {
            f: self.f,
            i,
            c,
            path,
        }
    }

    // Magnitude (2).
    fn f_mag(&self) -> i64
        ensures { result ≡ f_mag_fixed self.now.c self.now.f.now.x.m }
    {
        let Coefficients { c0, c1, c2, c3, .. } = self.c;
        let m = self.f.x.m;
        let sum = 100 * i64::from(c0)
            + i64::from(c1) * m as i64
            + i64::from(c2) * m.saturating_sub(550) as i64
            + i64::from(c3) * m.saturating_sub(650) as i64;
        sum * 10_000
    }

    // Distance (3).
    fn f_dis(&self) -> i64
        ensures { result ≡ f_dis_fixed self.now.c self.now.f.now.x.m self.now.f.now.x.rrup }
    {
        let slope = 100 * i64::from(self.c.c4) + i64::from(self.c.c5) * self.f.x.m as i64;
        mul_div(slope, self.path, 200_000)
    }

    // Style of faulting (4), with the smaller of ZTOR and a kilometre (5).
    fn f_flt(&self) -> i64
        ensures { result ≡ f_flt_fixed self.now.c self.now.f.now.x.style self.now.f.now.x.ztor }
    {
        match self.f.x.style {
            Style::StrikeSlip => 0,
            Style::Reverse => i64::from(self.c.c7) * self.f.x.ztor.min(1_000) as i64 * 1_000,
            Style::Normal => i64::from(self.c.c8) * 1_000_000,
        }
    }

    // The hanging wall (6), from the product of its four factors.
    fn f_hng(&self) -> i64
        ensures { result ≡ f_hng_fixed self.now.c self.now.f.now.x }
    {
        mul_div(i64::from(self.c.c9), self.f.wall as i64, 1_000)
    }

    // The basin (12), from its factor below 3 km.
    fn f_sed(&self) -> i64
        ensures { result ≡ f_sed_fixed self.now.c self.now.f.now.x.z25 }
    {
        let z = self.f.x.z25;
        if z < 1_000 {
            return i64::from(self.c.c11) * (z as i64 - 1_000) * 1_000;
        }
        if z <= 3_000 {
            return 0;
        }
        mul_div(
            i64::from(self.c.c12) * i64::from(self.c.k3),
            self.f.deep as i64,
            1_000_000,
        )
    }

    // ln Y (1), the site term known.
    pub fn ln_sum(&self, site: i64) -> i64
        requires { nat_abs site ≤ 13100000000 }
        ensures { result ≡ ln_sum self.now.c self.now.f.now.x site }
    {
        self.f_mag() + self.f_dis() + self.f_flt() + self.f_hng() + site + self.f_sed()
    }
}

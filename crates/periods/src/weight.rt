// How far a period lies along the line between two others, and what is drawn there.
ghost use Rattle.std.specs.Prelude.{◌≡◌, ◌*◌, ◌≤◌, ◌<◌, pos, nat_abs};
ghost use Rattle.exact.specs.Near.{up};
ghost use Rattle.fixed.specs.Fixed.{E9};
ghost use Rattle.model.specs.Fixed.{FineInRange};
ghost use Rattle.between.specs.Fixed.{weight_fixed, on_line_fixed, fine_sigma, sigma_on_line_fixed, drawn_fixed, Gap};

use between::Drawn;
use model::Fine;
use reckon::{E9, ln_narrow, mul_div, whole_root};

// A quarter of one, in units of 10^-9.
const QUARTER: i64 = 250_000_000;

// How far along a line from one number to another, in units of 10^-9.
#[derive(Clone, Copy)]
pub struct Weight {
    w: u64,
    ghost at_most_one: { w ≤ E9 },
}

impl Weight {
    // That of the period t between t1 and t2: ln(t/t1)/ln(t2/t1).
    #[tactic(auto, unfolding(between::specs::Fixed::weight_fixed))]
    pub fn of(t: u64, t1: u64, t2: u64) -> Self
        requires { Gap t1 t2 × (t1 ≤ t) × (t ≤ t2) }
        ensures { result.w ≡ weight_fixed t t1 t2 }
    {
        let a = ln_narrow(t, t1);
        let b = ln_narrow(t2, t1);
        Self { w: a * E9 / b }
    }

    // The number that far along the line from a to b. A quarter of the difference is taken, so that the
    // product fits.
    #[tactic(auto, using(crate::proofs::LineFits::steps))]
    fn on_line(self, a: i64, b: i64) -> i64
        requires { (nat_abs a ≤ 16000000000) × (nat_abs b ≤ 16000000000) }
        ensures { result ≡ on_line_fixed self.w a b }
    {
        a + mul_div((b - a) / 4, self.w as i64, QUARTER)
    }

    // The same of two numbers without a sign.
    fn plain_on_line(self, a: u64, b: u64) -> u64
        requires { (a ≤ 1549200000) × (b ≤ 1549200000) }
        ensures { (result ≡ up (on_line_fixed self.w (pos a) (pos b))) × (result ≤ 1549200000) }
    {
        self.on_line(a as i64, b as i64) as u64
    }

    // The sigma on the line between those of two variances.
    fn sigma_on_line(self, v: u64, u: u64) -> u64
        requires { (v ≤ 2400000000) × (u ≤ 2400000000) }
        ensures { (result ≡ sigma_on_line_fixed self.w v u) × (result ≤ 1549200000) }
    {
        self.plain_on_line(fine_sigma(v), fine_sigma(u))
    }

    // The row between two fine ones, each sigma on its own line.
    #[tactic(auto, unfolding(between::specs::Fixed::drawn_fixed))]
    pub fn drawn_between(self, f: Fine, g: Fine) -> Drawn
        requires { FineInRange f × FineInRange g }
        ensures { result ≡ drawn_fixed self.w f g }
    {
        Drawn {
            ln: self.on_line(f.ln, g.ln),
            intra: self.sigma_on_line(f.intra, g.intra),
            inter: self.plain_on_line(f.t * 1_000_000, g.t * 1_000_000),
            total: self.sigma_on_line(f.total, g.total),
            arbitrary: self.sigma_on_line(f.arbitrary, g.arbitrary),
        }
    }
}

// A sigma from its variance.
// Variances and sigmas stay plain numbers with their bounds in clauses, as Fine and Drawn hold them, which the
// specs build for any request.
fn fine_sigma(v: u64) -> u64
    requires { v ≤ 2400000000 }
    ensures { (result ≡ fine_sigma v) × (result ≤ 1549200000) }
{
    whole_root(v * E9)
}

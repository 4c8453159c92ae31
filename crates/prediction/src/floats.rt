// The spectrum as f64 for the drawing program. Every figure is below 2^53, so that an f64 holds it
// whole.
ghost use Rattle.std.specs.Prelude.{◌≡◌, ◌≤◌, pos, nat_abs};
ghost use Rattle.std.proofs.Common.{lit<};
ghost use Rattle.prediction.specs.Sizes.{Small};
ghost use Rattle.prediction.specs.Floats.{Is, Same, float, floats_of, float_spectrum_of};

use crate::predict_as;
use model::{Fine, Row};
use refusals::Refusal;
use reports::Reported;
use request::Request;
use tables::MEASURES;

// A row whose every field is the whole number as an f64. As `Row` it has a type of its own, since there ln
// alone is signed.
#[derive(Clone, Copy)]
pub struct FloatRow {
    pub ln: f64,
    pub median: f64,
    pub intra: f64,
    pub inter: f64,
    pub total: f64,
    pub arbitrary: f64,
}

// A whole number as the f64 that it is. A `From` of the library's is there for 32 bits alone.
#[tactic(auto, using(crate::proofs::FloatLaws::float_is))]
pub fn of_nat(n: u64) -> f64
    requires { n ≤ 9007199254740992 }
    ensures { (result ≡ float (pos n)) × Is result (pos n) }
{
    n as f64
}

// A signed whole number as the f64 that it is.
pub fn of_int(n: i64) -> f64
    requires { nat_abs n ≤ 9007199254740992 }
    ensures { (result ≡ float n) × Is result n }
{
    n as f64
}

// One row. No `From`, which could not ask that the row is small.
#[tactic(auto, using(crate::proofs::FloatLaws::row_same), unfolding(crate::specs::Floats::floats_of))]
pub fn float_row(r: Row) -> FloatRow
    requires { Small r }
    ensures { (result ≡ floats_of r) × Same result r }
{
    FloatRow {
        ln: of_int(r.ln),
        median: of_nat(r.median),
        intra: of_nat(r.intra),
        inter: of_nat(r.inter),
        total: of_nat(r.total),
        arbitrary: of_nat(r.arbitrary),
    }
}

// What is reported of a measure, as f64.
impl Reported for FloatRow {
    ghost told = { floats_of };

    ghost fits = { lit< tt };

    fn report(i: usize, f: Fine) -> Self {
        float_row(Row::report(i, f))
    }
}

// Predicts all measures of any request, each figure the whole number as an f64.
#[tactic(auto, unfolding(crate::specs::Floats::float_spectrum_of))]
pub fn predict_floats(r: Request) -> Result<[FloatRow; MEASURES], Refusal>
    ensures { result ≡ float_spectrum_of r }
{
    predict_as::<FloatRow>(r)
}

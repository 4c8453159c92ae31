// A request predicted: completed, and the 24 measures of it reckoned; or the first refusal in
// document 01's order, handed on from the completion.
#![tactic(auto)]

mod floats;
mod measure;

ghost use Rattle.std.specs.Prelude.{◌≡◌};
ghost use Rattle.prediction.specs.Spectra.{scenario_of, spectrum_of, spectrum_as, shown_spectrum_of};

use completion::complete;
pub use floats::{FloatRow, float_row, predict_floats};
pub use measure::{MedianAndSigma, predict_measure};
use model::{Row, Scenario, Shown};
use refusals::Refusal;
use reports::{Reported, rows_of};
use request::Request;
use tables::MEASURES;

// The figures of a completed request that the model reads, whatever their origins.
#[tactic(auto, unfolding(crate::specs::Spectra::scenario_of))]
pub fn scenario_of(c: Request) -> Scenario
    ensures { result ≡ scenario_of c }
{
    Scenario {
        m: c.m.size(),
        style: c.style(),
        vs30: c.vs30.size(),
        dip: c.dip.size(),
        ztor: c.ztor.size(),
        rjb: c.rjb.size(),
        rrup: c.rrup.size(),
        z25: c.z25.size(),
    }
}

// What is reported of all measures of any request. It asks for nothing: each of the thirteen fields may
// hold any i64.
#[tactic(auto, using(crate::proofs::Completed::in_range), unfolding(crate::specs::Spectra::spectrum_as, crate::specs::Spectra::spectrum_of, crate::specs::Spectra::spectrum_for))]
fn predict_as<T: Reported>(r: Request) -> Result<[T; MEASURES], Refusal>
    ensures { result ≡ spectrum_as T.told r }
{
    let c = complete(r)?;
    Ok(rows_of(scenario_of(c)))
}

// Predicts all measures of any request.
#[tactic(auto, using(crate::proofs::RowLaws::told_whole))]
pub fn predict(r: Request) -> Result<[Row; MEASURES], Refusal>
    ensures { result ≡ spectrum_of r }
{
    predict_as::<Row>(r)
}

// Predicts what a sheet shows of all measures of any request: one sigma a measure, so that one root is
// taken for it.
#[tactic(auto, unfolding(crate::specs::Spectra::shown_spectrum_of))]
pub fn predict_shown(r: Request) -> Result<[Shown; MEASURES], Refusal>
    ensures { result ≡ shown_spectrum_of r }
{
    predict_as::<Shown>(r)
}

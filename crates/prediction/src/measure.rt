// One measure alone: its row is the only one reckoned.
ghost use Rattle.std.specs.Prelude.{◌≡◌};
ghost use Rattle.prediction.specs.Measures.{measure_of};

use crate::floats::of_nat;
use crate::scenario_of;
use completion::complete;
use model::Shown;
use refusals::Refusal;
use reports::row_at;
use request::Request;
use tables::MEASURES;

// The median and the sigma that a sheet shows of a measure.
#[derive(Clone, Copy)]
pub struct MedianAndSigma {
    pub median: f64,
    pub sigma: f64,
}

// Predicts one measure of any request. It asks for nothing: the measure may be any number.
#[tactic(auto, using(crate::proofs::Completed::in_range, crate::proofs::MeasureLaws::measure_fixed), unfolding(crate::specs::Measures::shown_value))]
pub fn predict_measure(r: Request, measure: u64) -> Result<MedianAndSigma, Refusal>
    ensures { result ≡ measure_of r measure }
{
    let c = complete(r)?;
    if MEASURES as u64 <= measure {
        return Err(Refusal::NoMeasure);
    }
    let shown = row_at::<Shown>(measure as usize, scenario_of(c));
    Ok(MedianAndSigma {
        median: of_nat(shown.median),
        sigma: of_nat(shown.sigma),
    })
}

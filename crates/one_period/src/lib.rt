// One period of a request, predicted: its row is the only one reckoned; or the first refusal in document
// 01's order. The period is tested after all that is tested of the request.
#![tactic(auto)]

ghost use Rattle.std.specs.Prelude.{◌≡◌};
ghost use Rattle.one_period.specs.OnePeriods.{period_of, float_period_of};

use completion::complete;
use model::Row;
use periods::{is_covered, row_at_period};
use prediction::{FloatRow, float_row, scenario_of};
use refusals::Refusal;
use request::Request;

// Predicts one period of any request, in thousandths of a second. It asks for nothing: the period may be
// any number.
pub fn predict_period(r: Request, period: u64) -> Result<Row, Refusal>
    ensures { result ≡ period_of r period }
{
    let c = complete(r)?;
    if !is_covered(period) {
        return Err(Refusal::NoPeriod);
    }
    Ok(row_at_period(period, scenario_of(c)))
}

// The same, each figure the whole number as an f64.
pub fn predict_float_period(r: Request, period: u64) -> Result<FloatRow, Refusal>
    ensures { result ≡ float_period_of r period }
{
    let row = predict_period(r, period)?;
    Ok(float_row(row))
}

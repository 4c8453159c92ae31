// One measure of a line, laid in two numbers that a caller lends. It is told by a number, since C has no
// `Result`.
#![tactic(auto)]

ghost use Rattle.std.specs.Prelude.{◌≡◌};
ghost use Rattle.text.specs.Grammar.{line_of};
ghost use Rattle.one_measure.specs.OneMeasures.{measure_answer, MeasureGiven};

use prediction::{MedianAndSigma, predict_measure};
use refusals::Refusal;
use text::read_line;

// The answer for one measure of a line without its LF.
#[tactic(auto, unfolding(crate::specs::OneMeasures::measure_answer))]
fn measure_of(line: &[u8], measure: u64) -> Result<MedianAndSigma, Refusal>
    ensures { result ≡ measure_answer (line_of line.now) measure }
{
    let r = read_line(line).ok_or(Refusal::Malformed)?;
    predict_measure(r, measure)
}

// One measure of a line without its LF: 0, and its median and total sigma; or the refusal's number,
// and both as they were.
#[tactic(auto, unfolding(prediction::specs::Measures::median_in, prediction::specs::Measures::sigma_in))]
pub fn measure_in(line: &[u8], measure: u64, median: &mut f64, total: &mut f64) -> u32
    ensures { MeasureGiven (measure_answer (line_of line.now) measure) result median.old median.new total.old total.new }
{
    match measure_of(line, measure) {
        Ok(shown) => {
            *median = shown.median;
            *total = shown.sigma;
            0
        }
        Err(refusal) => u32::from(refusal),
    }
}

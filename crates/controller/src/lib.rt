// What a valve's controller calls: one measure, and nothing else, told by a number, since C has no `Result`. By its
// name in C it stands in `controller_c`.
#![tactic(auto)]

ghost use Rattle.text.specs.Grammar.{line_of};
ghost use Rattle.one_measure.specs.OneMeasures.{measure_answer, MeasureGiven};

use one_measure::measure_in;

// One measure of a line without its LF: 0, and its median and total sigma; or the refusal's number,
// and both as they were.
pub fn xanhupive_measure(line: &[u8], measure: u64, median: &mut f64, total: &mut f64) -> u32
    ensures { MeasureGiven (measure_answer (line_of line.now) measure) result median.old median.new total.old total.new }
{
    measure_in(line, measure, median, total)
}

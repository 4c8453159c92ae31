// What a valve's controller links: one measure by its name in C, and nothing else. The function is the one of
// `controller`.
#![tactic(auto)]

ghost use Rattle.text.specs.Grammar.{line_of};
ghost use Rattle.one_measure.specs.OneMeasures.{measure_answer, MeasureGiven};

// One measure of a line without its LF: 0, and its median and total sigma; or the refusal's number,
// and both as they were.
#[unsafe(no_mangle)]
pub extern "C" fn xanhupive_measure(
    line: &[u8],
    measure: u64,
    median: &mut f64,
    total: &mut f64,
) -> u32
    ensures { MeasureGiven (measure_answer (line_of line.now) measure) result median.old median.new total.old total.new }
{
    controller::xanhupive_measure(line, measure, median, total)
}

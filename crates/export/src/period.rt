// One period by the name of C: the function is one of `row_numbers`.
ghost use Rattle.text.specs.Grammar.{line_of};
ghost use Rattle.row_numbers.specs.RowNumbers.{period_answer, PeriodGiven};

use row_numbers::period_in;

// The row at a period of a line without its LF, six numbers, at the start of `row`: 0, or the refusal's
// number, and then no number has changed.
pub fn xanhupive_period(line: &[u8], period: u64, row: &mut [f64]) -> u32
    ensures { PeriodGiven (period_answer (line_of line.now) period) row.old result row.new }
{
    period_in(line, period, row)
}

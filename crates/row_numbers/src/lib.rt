// A row as numbers in memory that a caller lends; and the row at a period of a line, laid there and told by a
// number, since C has no `Result`.
#![tactic(auto)]

ghost use Rattle.std.specs.Prelude.{◌≡◌, ◌+◌, ◌≤◌, length};
ghost use Rattle.lent.specs.Lent.{Written};
ghost use Rattle.text.specs.Grammar.{line_of};
ghost use Rattle.row_numbers.specs.RowNumbers.{row_numbers, period_answer, period_laid, period_after, PeriodGiven};

use lent::put_slice;
use one_period::predict_float_period;
use prediction::FloatRow;
use refusals::Refusal;
use text::read_line;

// How many numbers a row has.
pub const COLUMNS: usize = 6;

// One row from place `at` on, for which there is room.
#[tactic(auto, unfolding(crate::specs::RowNumbers::row_numbers))]
pub fn put_row(out: &mut [f64], at: usize, r: FloatRow) -> usize
    requires { at + length (row_numbers r) ≤ length out.old }
    ensures { Written out.old at (row_numbers r) result out.new }
{
    let s = [r.ln, r.median, r.intra, r.inter, r.total, r.arbitrary];
    put_slice(out, at, &s)
}

// The row at a period of a line without its LF, at the start of `row`, or its refusal. Too few are told of
// after all else.
#[tactic(auto, using(crate::proofs::GivenLaws::length_row), unfolding(crate::specs::RowNumbers::period_answer, crate::specs::RowNumbers::period_laid, crate::specs::RowNumbers::period_after, lent::specs::Lent::wrote, lent::specs::Lent::after))]
fn lay_period(line: &[u8], period: u64, row: &mut [f64]) -> Result<usize, Refusal>
    ensures answer { result ≡ period_laid (period_answer (line_of line.now) period) (length row.old) }
    ensures became { row.new ≡ period_after (period_answer (line_of line.now) period) row.old }
{
    let r = read_line(line).ok_or(Refusal::Malformed)?;
    let numbers = predict_float_period(r, period)?;
    if row.len() < COLUMNS {
        return Err(Refusal::TooLong);
    }
    Ok(put_row(row, 0, numbers))
}

// The row at a period of a line without its LF, at the start of `row`: 0, or the refusal's number, and then
// no number has changed.
pub fn period_in(line: &[u8], period: u64, row: &mut [f64]) -> u32
    ensures { PeriodGiven (period_answer (line_of line.now) period) row.old result row.new }
{
    match lay_period(line, period, row) {
        Ok(_) => 0,
        Err(refusal) => u32::from(refusal),
    }
}

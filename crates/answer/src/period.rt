// The row at a period as a line of text, written into lent bytes: counted first, so that a line too long
// for them changes none.
ghost use Rattle.std.specs.Prelude.{◌≡◌, Result};
ghost use Rattle.model.specs.Rows.{shown_of};
ghost use Rattle.lent.specs.Lent.{LentWritten};
ghost use Rattle.answer.specs.RowLines.{row_line, period_line};

use crate::rows::{put_row, row_length};
use lines::{Numbered, room, write_no};
use model::{Row, Shown};
use refusals::Refusal;

// What a sheet shows of a row.
#[tactic(auto, unfolding(model::specs::Rows::shown_of))]
fn shown_of(row: Row) -> Shown
    ensures { result ≡ shown_of row }
{
    Shown {
        ln: row.ln,
        median: row.median,
        sigma: row.total,
    }
}

// The line of what is shown, behind the number n.
fn write_row(out: &mut [u8], n: u64, shown: Shown) -> Result<usize, Refusal>
    ensures { LentWritten out.old (row_line n shown) result out.new }
{
    room(out.len(), row_length(n, shown))?;
    Ok(put_row(out, 0, n, shown))
}

// The line of a period, or that of its refusal. Its only refusal is TooLong, and then no byte of `out`
// has changed.
#[tactic(auto, unfolding(crate::specs::RowLines::period_line))]
pub fn write_period<N: Numbered>(
    out: &mut [u8],
    period: u64,
    answer: Result<Row, N>,
) -> Result<usize, Refusal>
    ensures { LentWritten out.old (period_line N.number period answer) result out.new }
{
    match answer {
        Ok(row) => write_row(out, period, shown_of(row)),
        Err(refusal) => write_no(out, refusal),
    }
}

// A spectrum as lines of text, one a measure, written into lent bytes: counted first, so that lines
// too long for them change none.
ghost use Rattle.std.specs.Prelude.{◌≡◌, ◌+◌, ◌≤◌, length, Result};
ghost use Rattle.tables.specs.Tables.{measures};
ghost use Rattle.lent.specs.Lent.{Written, LentWritten};
ghost use Rattle.answer.specs.RowLines.{row_line, row_lines, spectrum_lines};

use lent::put_byte;
use lines::{Numbered, room, write_no};
use model::Shown;
use numerals::{digits, put_ended, put_signed, width};
use refusals::Refusal;
use tables::MEASURES;

// The line of a measure, for which there is room.
pub fn put_row(out: &mut [u8], at: usize, k: u64, row: Shown) -> usize
    requires { at + length (row_line k row) ≤ length out.old }
    ensures { Written out.old at (row_line k row) result out.new }
{
    let at = put_ended(out, at, k, b' ');
    let at = put_signed(out, at, row.ln);
    let at = put_byte(out, at, b' ');
    let at = put_ended(out, at, row.median, b' ');
    put_ended(out, at, row.sigma, b'\n')
}

// How many bytes a measure's line has: 4 beside its digits and the sign.
pub fn row_length(k: u64, row: Shown) -> usize
    ensures { (result ≡ length (row_line k row)) × (result ≤ 85) }
{
    digits(k) + width(row.ln) + digits(row.median) + digits(row.sigma) + 4
}

// The lines of all measures, for which there is room.
fn put_rows(out: &mut [u8], rows: [Shown; MEASURES]) -> usize
    requires { length (row_lines measures rows) ≤ length out.old }
    ensures { Written out.old 0 (row_lines measures rows) result out.new }
{
    let mut at = 0;
    for (k, row) in rows.iter().enumerate() {
        at = put_row(out, at, k as u64, *row);
    }
    at
}

// How many bytes the lines of all measures have.
fn rows_length(rows: [Shown; MEASURES]) -> usize
    ensures { result ≡ length (row_lines measures rows) }
{
    let mut n = 0;
    for (k, row) in rows.iter().enumerate() {
        n += row_length(k as u64, *row);
    }
    n
}

// The lines of a spectrum, or the line of its refusal. Its only refusal is TooLong, and then no
// byte of `out` has changed.
pub fn write_spectrum<N: Numbered>(
    out: &mut [u8],
    answer: Result<[Shown; MEASURES], N>,
) -> Result<usize, Refusal>
    ensures { LentWritten out.old (spectrum_lines N.number answer) result out.new }
{
    let rows = match answer {
        Ok(rows) => rows,
        Err(refusal) => return write_no(out, refusal),
    };
    room(out.len(), rows_length(rows))?;
    Ok(put_rows(out, rows))
}

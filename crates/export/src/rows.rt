// The rows of a spectrum one after the other in lent numbers.
ghost use Rattle.std.specs.Prelude.{◌≤◌, length};
ghost use Rattle.lent.specs.Lent.{Written};
ghost use Rattle.export.specs.Given.{numbers_of};

use prediction::FloatRow;
use row_numbers::{COLUMNS, put_row};
use tables::MEASURES;

// How many numbers a spectrum has.
pub const NUMBERS: usize = COLUMNS * MEASURES;

// All rows, for which there is room.
pub fn put_rows(out: &mut [f64], rows: [FloatRow; MEASURES]) -> usize
    requires { length (numbers_of rows) ≤ length out.old }
    ensures { Written out.old 0 (numbers_of rows) result out.new }
{
    let mut at = 0;
    for row in rows {
        at = put_row(out, at, row);
    }
    at
}

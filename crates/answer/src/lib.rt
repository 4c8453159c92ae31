// From the bytes of a request line to the bytes of its answer: read, worked out and written, one line
// a call, as the sheet that is asked for shows it.
#![tactic(auto)]

mod period;
mod rows;

ghost use Rattle.lent.specs.Lent.{LentWritten};
ghost use Rattle.answer.specs.Sheets.{sheet_of, answer_to};

use completion::complete;
use lines::{write_completion, write_no};
use one_period::predict_period;
pub use period::write_period;
use prediction::predict_shown;
use refusals::Refusal;
use request::Request;
pub use rows::write_spectrum;
use text::read_line;

// Which answers are asked for: the completed figures, the rows of the measures, or the row at a period in
// thousandths of a second.
#[derive(Clone, Copy)]
pub enum Sheet {
    Completion,
    Prediction,
    Period(u64),
}

// The answer to a request. Its only refusal is TooLong, and then no byte of `out` has changed.
pub fn answer_request(sheet: Sheet, r: Request, out: &mut [u8]) -> Result<usize, Refusal>
    ensures { LentWritten out.old (sheet_of sheet r) result out.new }
{
    match sheet {
        Sheet::Completion => write_completion(out, complete(r)),
        Sheet::Prediction => write_spectrum(out, predict_shown(r)),
        Sheet::Period(t) => write_period(out, t, predict_period(r, t)),
    }
}

// The answer to a line without its LF: any bytes, of any length. It is refused as that to a request is.
pub fn answer_line(sheet: Sheet, s: &[u8], out: &mut [u8]) -> Result<usize, Refusal>
    ensures { LentWritten out.old (answer_to sheet s.now) result out.new }
{
    match read_line(s) {
        Some(r) => answer_request(sheet, r, out),
        None => write_no(out, Refusal::Malformed),
    }
}

// The rows of a line or of a file's record, once that is read.
ghost use Rattle.kept.specs.Faults.{number_in};
ghost use Rattle.export.specs.Given.{SpectrumGiven, spectrum_or};

use crate::rows::{NUMBERS, put_rows};
use kept::Fault;
use prediction::predict_floats;
use refusals::Refusal;
use request::Request;

// The rows of what was read, at the start of `rows`; `malformed` if there is no request. A fault leaves
// every number as it was. Too few are told of after all else.
pub fn spectrum_or(line: Option<Request>, malformed: Refusal, rows: &mut [f64]) -> Result<(), Fault>
    ensures { SpectrumGiven (spectrum_or malformed line) rows.old (number_in result) rows.new }
{
    let request = line.ok_or(malformed)?;
    let made = predict_floats(request)?;
    if rows.len() < NUMBERS {
        return Err(Fault::Refused(Refusal::TooLong));
    }
    put_rows(rows, made);
    Ok(())
}

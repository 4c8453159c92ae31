// The functions that a service in C or Rust calls. None asks anything of the bytes and numbers that it
// is lent, and a refusal changes none of them. C has no `Result`, so that they answer with numbers. By their names
// in C they stand in `export_c`.
#![tactic(auto)]

mod files;
mod measure;
mod parts;
mod period;
mod rows;
mod spectrum;

ghost use Rattle.refusals.specs.declared.Refusal.TheVariants as No;
ghost use Rattle.text.specs.Grammar.{line_of};
ghost use Rattle.answer.specs.declared.Sheet.TheVariants as S;
ghost use Rattle.answer.specs.Sheets.{answer_to};
ghost use Rattle.export.specs.Given.{LineGiven, SpectrumGiven, spectrum_or};

use answer::{Sheet, answer_line};
pub use files::{
    xanhupive_file_records, xanhupive_pack, xanhupive_record_answer, xanhupive_record_spectrum,
    xanhupive_unpack,
};
use kept::number_in;
pub use measure::xanhupive_measure;
pub use parts::{xanhupive_close, xanhupive_reader_begin, xanhupive_take_part};
pub use period::xanhupive_period;
use refusals::Refusal;
use spectrum::spectrum_or;
use text::read_line;

// The completing program's answer to a line without its LF: how many bytes it has at the start of
// `out`, or 0 where it is longer, and then no byte has changed.
pub fn xanhupive_complete_line(line: &[u8], out: &mut [u8]) -> usize
    ensures { LineGiven out.old (answer_to S.Completion line.now) result out.new }
{
    answer_line(Sheet::Completion, line, out).unwrap_or(0)
}

// The predicting program's answer to a line without its LF: how many bytes it has at the start of
// `out`, or 0 where it is longer, and then no byte has changed.
pub fn xanhupive_predict_line(line: &[u8], out: &mut [u8]) -> usize
    ensures { LineGiven out.old (answer_to S.Prediction line.now) result out.new }
{
    answer_line(Sheet::Prediction, line, out).unwrap_or(0)
}

// The rows of a line without its LF, six numbers a row, at the start of `rows`: 0, or the refusal's
// number, and then no number has changed.
pub fn xanhupive_spectrum(line: &[u8], rows: &mut [f64]) -> u32
    ensures { SpectrumGiven (spectrum_or No.Malformed (line_of line.now)) rows.old result rows.new }
{
    number_in(spectrum_or(read_line(line), Refusal::Malformed, rows))
}

// What a service in C or Rust links: the functions of `export` by their plain names, each of which it calls.
// None asks anything of the bytes and numbers that it is lent, and a refusal changes none of them.
#![tactic(auto)]

ghost use Rattle.std.specs.Prelude.{◌≡◌};
ghost use Rattle.refusals.specs.declared.Refusal.TheVariants as No;
ghost use Rattle.text.specs.Grammar.{line_of};
ghost use Rattle.answer.specs.declared.Sheet.TheVariants as S;
ghost use Rattle.answer.specs.Sheets.{answer_to};
ghost use Rattle.one_measure.specs.OneMeasures.{measure_answer, MeasureGiven};
ghost use Rattle.row_numbers.specs.RowNumbers.{period_answer, PeriodGiven};
ghost use Rattle.site_files.specs.Format.{count_in, pack_of, unpack_of};
ghost use Rattle.site_files.specs.Given.{Told, counted};
ghost use Rattle.kept.specs.Calls.{loan, numbered, begin_told, part_told, close_told};
ghost use Rattle.record_answers.specs.RecordAnswers.{record_reply, RecordTold};
ghost use Rattle.export.specs.Given.{LineGiven, SpectrumGiven, spectrum_or, record_spectrum};

// The completing program's answer to a line without its LF: how many bytes it has at the start of
// `out`, or 0 where it is longer, and then no byte has changed.
#[unsafe(no_mangle)]
pub extern "C" fn xanhupive_complete_line(line: &[u8], out: &mut [u8]) -> usize
    ensures { LineGiven out.old (answer_to S.Completion line.now) result out.new }
{
    export::xanhupive_complete_line(line, out)
}

// The predicting program's answer to a line without its LF: how many bytes it has at the start of
// `out`, or 0 where it is longer, and then no byte has changed.
#[unsafe(no_mangle)]
pub extern "C" fn xanhupive_predict_line(line: &[u8], out: &mut [u8]) -> usize
    ensures { LineGiven out.old (answer_to S.Prediction line.now) result out.new }
{
    export::xanhupive_predict_line(line, out)
}

// The rows of a line without its LF, six numbers a row, at the start of `rows`: 0, or the refusal's
// number, and then no number has changed.
#[unsafe(no_mangle)]
pub extern "C" fn xanhupive_spectrum(line: &[u8], rows: &mut [f64]) -> u32
    ensures { SpectrumGiven (spectrum_or No.Malformed (line_of line.now)) rows.old result rows.new }
{
    export::xanhupive_spectrum(line, rows)
}

// One measure of a line without its LF: 0, and its median and total sigma; or the refusal's number,
// and both as they were.
#[unsafe(no_mangle)]
pub extern "C" fn xanhupive_measure(
    line: &[u8],
    measure: u64,
    median: &mut f64,
    total: &mut f64,
) -> u32
    ensures { MeasureGiven (measure_answer (line_of line.now) measure) result median.old median.new total.old total.new }
{
    export::xanhupive_measure(line, measure, median, total)
}

// The row at a period of a line without its LF, six numbers, at the start of `row`: 0, or the refusal's
// number, and then no number has changed.
#[unsafe(no_mangle)]
pub extern "C" fn xanhupive_period(line: &[u8], period: u64, row: &mut [f64]) -> u32
    ensures { PeriodGiven (period_answer (line_of line.now) period) row.old result row.new }
{
    export::xanhupive_period(line, period, row)
}

// A reader before the first byte of a list: 0, or 255 where it is lent too few bytes.
#[unsafe(no_mangle)]
pub extern "C" fn xanhupive_reader_begin(reader: &mut [u8]) -> u32
    ensures { (result, reader.new) ≡ begin_told reader.old }
{
    export::xanhupive_reader_begin(reader)
}

// A part of a list: 0, with how many of its bytes were taken and how many written; or 16; or 255 for too
// few bytes of a reader or a number that is no sheet's.
#[unsafe(no_mangle)]
pub extern "C" fn xanhupive_take_part(
    reader: &mut [u8],
    sheet: u64,
    part: &[u8],
    out: &mut [u8],
    took: &mut u64,
    wrote: &mut u64,
) -> u32
    ensures { (result, loan reader.new out.new took.new wrote.new) ≡ part_told (numbered sheet) part.now (loan reader.old out.old took.old wrote.old) }
{
    export::xanhupive_take_part(reader, sheet, part, out, took, wrote)
}

// The end of a list: 0, with how many bytes were written, and a new reader; or 16; or 255.
#[unsafe(no_mangle)]
pub extern "C" fn xanhupive_close(reader: &mut [u8], out: &mut [u8], wrote: &mut u64) -> u32
    ensures { (result, loan reader.new out.new 0 wrote.new) ≡ close_told (loan reader.old out.old 0 wrote.old) }
{
    export::xanhupive_close(reader, out, wrote)
}

// The file of a list: 0, with how many bytes were written; or 14, 20 or 16.
#[unsafe(no_mangle)]
pub extern "C" fn xanhupive_pack(list: &[u8], file: &mut [u8], wrote: &mut u64) -> u32
    ensures { Told (pack_of list.now) file.old wrote.old result file.new wrote.new }
{
    export::xanhupive_pack(list, file, wrote)
}

// The list of a file: 0, with how many bytes were written; or 19, 20, 21 or 16.
#[unsafe(no_mangle)]
pub extern "C" fn xanhupive_unpack(file: &[u8], list: &mut [u8], wrote: &mut u64) -> u32
    ensures { Told (unpack_of file.now) list.old wrote.old result list.new wrote.new }
{
    export::xanhupive_unpack(file, list, wrote)
}

// How many records a file has: 0, with their number; or 19, 20 or 21.
#[unsafe(no_mangle)]
pub extern "C" fn xanhupive_file_records(file: &[u8], count: &mut u64) -> u32
    ensures { (result, count.new) ≡ counted (unpack_of file.now) (count_in file.now) count.old }
{
    export::xanhupive_file_records(file, count)
}

// The rows of a record, six numbers a row, at the start of `rows`: 0; or the refusal's number, 21 for a
// field that is malformed; or 255 for too few bytes of a record. Then no number has changed.
#[unsafe(no_mangle)]
pub extern "C" fn xanhupive_record_spectrum(bytes: &[u8], rows: &mut [f64]) -> u32
    ensures { SpectrumGiven (record_spectrum bytes.now) rows.old result rows.new }
{
    export::xanhupive_record_spectrum(bytes, rows)
}

// The answer to a record as lines of text, on the sheet of a number, at the start of `out`: 0, with how
// many bytes were written; or 21 for a field that is malformed; or 16; or 255 for too few bytes of a
// record or a number that is no sheet's.
#[unsafe(no_mangle)]
pub extern "C" fn xanhupive_record_answer(
    bytes: &[u8],
    sheet: u64,
    out: &mut [u8],
    wrote: &mut u64,
) -> u32
    ensures { RecordTold (record_reply (numbered sheet) bytes.now) out.old wrote.old result out.new wrote.new }
{
    export::xanhupive_record_answer(bytes, sheet, out, wrote)
}

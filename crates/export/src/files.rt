// A file for site lists by the names of C: the functions of `site_files`, and the answers to a record, of
// which only the first 65 bytes are read, so that the rest of the file may follow.
ghost use Rattle.std.specs.Prelude.{◌≡◌};
ghost use Rattle.site_files.specs.Format.{count_in, pack_of, unpack_of};
ghost use Rattle.site_files.specs.Given.{Told, counted};
ghost use Rattle.kept.specs.Faults.{number_in};
ghost use Rattle.kept.specs.Calls.{numbered};
ghost use Rattle.record_answers.specs.RecordAnswers.{record_reply, RecordTold};
ghost use Rattle.export.specs.Given.{SpectrumGiven, record_spectrum};

use crate::spectrum::spectrum_or;
use kept::{Fault, number_in};
use record_answers::answer_record;
use records::{RECORD, record_in};
use refusals::Refusal;
use site_files::{pack_in, records_in, unpack_in};

// The file of a list: 0, with how many bytes were written; or 14, 20 or 16.
pub fn xanhupive_pack(list: &[u8], file: &mut [u8], wrote: &mut u64) -> u32
    ensures { Told (pack_of list.now) file.old wrote.old result file.new wrote.new }
{
    pack_in(list, file, wrote)
}

// The list of a file: 0, with how many bytes were written; or 19, 20, 21 or 16.
pub fn xanhupive_unpack(file: &[u8], list: &mut [u8], wrote: &mut u64) -> u32
    ensures { Told (unpack_of file.now) list.old wrote.old result list.new wrote.new }
{
    unpack_in(file, list, wrote)
}

// How many records a file has: 0, with their number; or 19, 20 or 21.
pub fn xanhupive_file_records(file: &[u8], count: &mut u64) -> u32
    ensures { (result, count.new) ≡ counted (unpack_of file.now) (count_in file.now) count.old }
{
    records_in(file, count)
}

// The rows of a record, of which there may be too few bytes.
fn record_spectrum(bytes: &[u8], rows: &mut [f64]) -> Result<(), Fault>
    ensures { SpectrumGiven (record_spectrum bytes.now) rows.old (number_in result) rows.new }
{
    if bytes.len() < RECORD {
        return Err(Fault::Misuse);
    }
    spectrum_or(record_in(&bytes[..RECORD]), Refusal::FileField, rows)
}

// The rows of a record, six numbers a row, at the start of `rows`: 0; or the refusal's number, 21 for a
// field that is malformed; or 255 for too few bytes of a record. Then no number has changed.
pub fn xanhupive_record_spectrum(bytes: &[u8], rows: &mut [f64]) -> u32
    ensures { SpectrumGiven (record_spectrum bytes.now) rows.old result rows.new }
{
    number_in(record_spectrum(bytes, rows))
}

// The answer to a record as lines of text, on the sheet of a number, at the start of `out`: 0, with how
// many bytes were written; or 21 for a field that is malformed; or 16; or 255 for too few bytes of a
// record or a number that is no sheet's.
pub fn xanhupive_record_answer(bytes: &[u8], sheet: u64, out: &mut [u8], wrote: &mut u64) -> u32
    ensures { RecordTold (record_reply (numbered sheet) bytes.now) out.old wrote.old result out.new wrote.new }
{
    answer_record(bytes, sheet, out, wrote)
}

// A record of a file for site lists answered, as the sheet that is asked for shows it: lines of text in lent
// bytes. Only the first bytes of the record are read, so that the rest of the file may follow.
#![tactic(auto)]

ghost use Rattle.kept.specs.declared.faults.Fault.TheVariants.{Refused};
ghost use Rattle.kept.specs.Calls.{numbered};
ghost use Rattle.site_files.specs.Given.{GivenBy};
ghost use Rattle.record_answers.specs.RecordAnswers.{record_reply, RecordTold};

use answer::answer_request;
use kept::{Fault, sheet_numbered};
use records::{RECORD, record_in};
use refusals::Refusal;
use site_files::tell;

// The answer: Misuse for too few bytes of a record or a number that is no sheet's, else FileField for a
// field that is malformed, or TooLong. Then no byte of `out` has changed.
fn answer_in(bytes: &[u8], sheet: u64, out: &mut [u8]) -> Result<usize, Fault>
    ensures { GivenBy Refused (record_reply (numbered sheet) bytes.now) out.old result out.new }
{
    if bytes.len() < RECORD {
        return Err(Fault::Misuse);
    }
    let sheet = sheet_numbered(sheet).ok_or(Fault::Misuse)?;
    let request = record_in(&bytes[..RECORD]).ok_or(Refusal::FileField)?;
    Ok(answer_request(sheet, request, out)?)
}

// The same, told as the calls of C are: 0, with how many bytes were written, or the number.
pub fn answer_record(bytes: &[u8], sheet: u64, out: &mut [u8], wrote: &mut u64) -> u32
    ensures { RecordTold (record_reply (numbered sheet) bytes.now) out.old wrote.old result out.new wrote.new }
{
    tell(answer_in(bytes, sheet, out).map_err(u32::from), wrote)
}

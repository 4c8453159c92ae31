// A list of lines as a file, and back. Everything is looked through before a byte is written.
ghost use Rattle.std.specs.Prelude.{◌≡◌};
ghost use Rattle.site_files.specs.Format.{pack_of, unpack_of};
ghost use Rattle.site_files.specs.Given.{Given, found};

use crate::from_lines::put_records;
use crate::from_records::{put_lines, survey_records};
use crate::head::{HEAD, MOST, count_in, is_marked, put_head};
use list_lines::survey_lines;
use records::RECORD;
use refusals::Refusal;

// The writer: a list of lines, each with its LF, to a file.
pub fn pack(list: &[u8], file: &mut [u8]) -> Result<usize, Refusal>
    ensures { Given (pack_of list.now) file.old result file.new }
{
    let n = survey_lines(list).ok_or(Refusal::Malformed)?;
    if MOST < n {
        return Err(Refusal::FileLength);
    }
    if file.len() < HEAD + RECORD * n {
        return Err(Refusal::TooLong);
    }
    let p = put_head(file, n as u64);
    Ok(put_records(file, p, list))
}

// Looks a file through: how many bytes its lines have.
pub fn look_through(file: &[u8]) -> Result<usize, Refusal>
    ensures { result ≡ found (unpack_of file.now) }
{
    if !is_marked(file) {
        return Err(Refusal::NoFile);
    }
    if file.len() < HEAD {
        return Err(Refusal::FileLength);
    }
    let n = count_in(file);
    if file.len() != HEAD + RECORD * n {
        return Err(Refusal::FileLength);
    }
    survey_records(&file[HEAD..], n).ok_or(Refusal::FileField)
}

// The reader: a file to a list of lines, each with its LF.
pub fn unpack(file: &[u8], list: &mut [u8]) -> Result<usize, Refusal>
    ensures { Given (unpack_of file.now) list.old result list.new }
{
    let size = look_through(file)?;
    if list.len() < size {
        return Err(Refusal::TooLong);
    }
    Ok(put_lines(list, &file[HEAD..], count_in(file)))
}

// The reader: a file's records to a list's lines. A field is told of only where the whole file is as long as
// its count says.
ghost use Rattle.std.specs.Prelude.{◌≡◌, ◌*◌, ◌≤◌, length, IfOk, IsOkUnless};
ghost use Rattle.request_lines.specs.RequestText.{list_text};
ghost use Rattle.records.specs.Records.{record_size};
ghost use Rattle.list_lines.specs.ListLines.{requests_in};
ghost use Rattle.site_files.specs.Format.{records_in};
ghost use Rattle.file_streams.specs.declared.Failure.TheVariants.{System};
ghost use Rattle.file_streams.specs.Ends.{some_records, Unblocked, Continued, Behind, UnpackEnd};

use crate::{Failure, Named, ROOM};
use records::RECORD;
use refusals::Refusal;
use site_files::{HEAD, count_in, is_marked, put_lines, survey_records};
use std::io::{Read, Write};

// The most records that are taken at once.
const SOME: usize = 600;

// Fills a buffer, or reads to the end of the input: how many bytes came.
fn fill(file: &mut Named<impl Eprint, impl Read>, buffer: &mut [u8]) -> Result<usize, Failure>
    ensures bound { IfOk result (λ n. n ≤ length buffer.new) }
    ensures fails { IsOkUnless result System }
{
    let mut n = 0usize;
    while n < buffer.len() {
        let some = file.read(&mut buffer[n..])?;
        if some == 0 {
            break;
        }
        n += some;
    }
    Ok(n)
}

// Writes the lines of so many records: nothing can be said of what the system does with bytes, but what is
// handed to it can.
fn put_list(
    list: &mut Named<impl Eprint, impl Write>,
    records: &[u8],
    count: usize,
    lines: &[u8],
) -> Result<(), Failure>
    requires { lines.now ≡ list_text (requests_in (records_in count records.now)) }
    ensures { IsOkUnless result System }
{
    list.write_all(lines)
}

// Takes so many records: whether all are well-formed, and then their lines are written.
fn unpack_block(
    list: &mut Named<impl Eprint, impl Write>,
    records: &[u8],
    count: usize,
    out: &mut [u8; ROOM],
) -> Result<bool, Failure>
    requires { (count ≤ some_records) × (record_size * count ≤ length records.now) }
    ensures { Unblocked count records.now result }
{
    let Some(_) = survey_records(records, count) else {
        return Ok(false);
    };
    let p = put_lines(out, records, count);
    put_list(list, records, count, &out[..p])?;
    Ok(true)
}

// The end of a file's records: nothing may follow them, and all must have been well-formed.
fn end_unpack(file: &mut Named<impl Eprint, impl Read>, sound: bool) -> Result<(), Failure>
    ensures { Behind sound result }
{
    let mut more = [0u8; 1];
    if 0 < file.read(&mut more)? {
        return Err(Failure::Refused(Refusal::FileLength));
    }
    if !sound {
        return Err(Failure::Refused(Refusal::FileField));
    }
    Ok(())
}

// Takes so many records after others: none is written after one that is malformed.
fn unpack_more(
    list: &mut Named<impl Eprint, impl Write>,
    sound: bool,
    records: &[u8],
    count: usize,
    out: &mut [u8; ROOM],
) -> Result<bool, Failure>
    requires { (count ≤ some_records) × (record_size * count ≤ length records.now) }
    ensures { Continued sound count records.now result }
{
    Ok(sound && unpack_block(list, records, count, out)?)
}

// So many records, some at a time. After one that is malformed all are read: the file may be too short.
fn unpack_records(
    file: &mut Named<impl Eprint, impl Read>,
    list: &mut Named<impl Eprint, impl Write>,
    count: usize,
    input: &mut [u8; ROOM],
    out: &mut [u8; ROOM],
) -> Result<(), Failure>
    ensures { UnpackEnd result }
{
    let mut left = count;
    let mut sound = true;
    while left > 0 {
        let some = left.min(SOME);
        let size = RECORD * some;
        if fill(file, &mut input[..size])? < size {
            return Err(Failure::Refused(Refusal::FileLength));
        }
        sound = unpack_more(list, sound, &input[..size], some, out)?;
        left -= some;
    }
    end_unpack(file, sound)
}

// The file read from its beginning to its end.
pub fn unpack_stream(
    file: &mut Named<impl Eprint, impl Read>,
    list: &mut Named<impl Eprint, impl Write>,
) -> Result<(), Failure>
    ensures { UnpackEnd result }
{
    let mut input = [0u8; ROOM];
    let mut out = [0u8; ROOM];
    let n = fill(file, &mut input[..HEAD])?;
    if !is_marked(&input[..n]) {
        return Err(Failure::Refused(Refusal::NoFile));
    }
    if n < HEAD {
        return Err(Failure::Refused(Refusal::FileLength));
    }
    let count = count_in(&input[..n]);
    unpack_records(file, list, count, &mut input, &mut out)
}

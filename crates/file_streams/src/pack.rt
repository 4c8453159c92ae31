// The writer: a list's lines to a file's records. The list is read once, so that it may come from a pipe, and
// the count that stands before the records is put in last.
ghost use Rattle.std.specs.Prelude.{◌≡◌, ◌+◌, ◌≤◌, length, take, IsOkUnless};
ghost use Rattle.list_lines.specs.ListLines.{lines_of, requests_in};
ghost use Rattle.site_files.specs.Format.{most_records, head_of, records_of};
ghost use Rattle.file_streams.specs.declared.Failure.TheVariants.{System};
ghost use Rattle.file_streams.specs.Ends.{block_size, held_by, ReadTo, Stepped, Taken, Closed, ReadEnd, PackEnd};

use crate::held::Held;
use crate::{Failure, Named, ROOM};
use cuts::up_to_last;
use list_lines::survey_lines;
use refusals::Refusal;
use site_files::{MOST, put_head, put_records};
use std::io::{Read, Seek, Write};
use text::LONGEST;

// The most bytes of a list that are taken at once.
const BLOCK: usize = 16384;

// Nothing can be said of what the system does with bytes. What is handed to it can: the three that
// follow take besides the bytes what these must be.

// Writes a head that has no count yet.
fn put_first(file: &mut Named<impl Eprint, impl Write>, head: &[u8]) -> Result<(), Failure>
    requires { head.now ≡ head_of 0 }
    ensures { IsOkUnless result System }
{
    file.write_all(head)
}

// Writes the records of some lines.
fn put_block(
    file: &mut Named<impl Eprint, impl Write>,
    lines: &[u8],
    records: &[u8],
) -> Result<(), Failure>
    requires { records.now ≡ records_of (requests_in (lines_of lines.now)) }
    ensures { IsOkUnless result System }
{
    file.write_all(records)
}

// Writes the head of a file of so many records over its first bytes.
fn put_count(
    file: &mut Named<impl Eprint, impl Write + Seek>,
    count: usize,
    head: &[u8],
) -> Result<(), Failure>
    requires { head.now ≡ head_of count }
    ensures { IsOkUnless result System }
{
    file.rewind()?;
    file.write_all(head)
}

// Takes some whole lines after so many others: their records are written, unless there are too many already. How
// many lines there are so far, up to one more than a file has.
fn pack_lines(
    file: &mut Named<impl Eprint, impl Write>,
    count: usize,
    lines: &[u8],
    out: &mut [u8; ROOM],
) -> Result<usize, Failure>
    requires { (count ≤ most_records + 1) × (length lines.now ≤ block_size) }
    ensures { Stepped count lines.now result }
{
    let Some(n) = survey_lines(lines) else {
        return Err(Failure::Refused(Refusal::Malformed));
    };
    if MOST < count + n {
        return Ok(MOST + 1);
    }
    let p = put_records(out, 0, lines);
    put_block(file, lines, &out[..p])?;
    Ok(count + n)
}

// The end of a list, of whose last line so many bytes came without an LF.
fn end_pack(
    file: &mut Named<impl Eprint, impl Write + Seek>,
    kept: usize,
    count: usize,
    out: &mut [u8; ROOM],
) -> Result<(), Failure>
    ensures { Closed kept count result }
{
    if 0 < kept {
        return Err(Failure::Refused(Refusal::Malformed));
    }
    if MOST < count {
        return Err(Failure::Refused(Refusal::FileLength));
    }
    let p = put_head(out, count as u64);
    put_count(file, count, &out[..p])
}

// Takes a block of a list, after so many lines: its whole lines are packed, and what is left of a line is held, if
// that can still be one.
fn take_block(
    file: &mut Named<impl Eprint, impl Write>,
    count: usize,
    block: &[u8],
    held: &mut Held,
    out: &mut [u8; ROOM],
) -> Result<usize, Failure>
    requires { (count ≤ most_records + 1) × (length block.now ≤ block_size) }
    ensures { Taken count block.now (held_by held.new) result }
{
    let cut = up_to_last(block, b'\n');
    if LONGEST < block.len() - cut {
        return Err(Failure::Refused(Refusal::Malformed));
    }
    held.hold(&block[cut..]);
    pack_lines(file, count, &block[..cut], out)
}

// How a run ends where nothing more is read.
fn end_read(
    read: Result<Option<usize>, Failure>,
    file: &mut Named<impl Eprint, impl Write + Seek>,
    held: &Held,
    count: usize,
    out: &mut [u8; ROOM],
) -> Result<(), Failure>
    ensures { ReadEnd held.now.count count read result }
{
    match read {
        Ok(Some(_)) => Err(Failure::System),
        Ok(None) => end_pack(file, held.count, count, out),
        Err(failure) => Err(failure),
    }
}

// Lays what is held in a block and reads behind it: how many bytes there are then, if any came.
fn read_behind(
    list: &mut Named<impl Eprint, impl Read>,
    held: &Held,
    block: &mut [u8; BLOCK],
) -> Result<Option<usize>, Failure>
    ensures { (ReadTo block_size result) × (take held.now.count block.new ≡ held_by held.now) }
{
    let kept = held.count;
    block[..kept].copy_from_slice(held.as_slice());
    let n = list.read(&mut block[kept..])?;
    Ok((n > 0).then_some(kept + n))
}

// Reads the list to its end. A proved loop has to end, and nothing says that the input does: the turns are
// counted up to a number that no run comes to.
fn read_list(
    list: &mut Named<impl Eprint, impl Read>,
    file: &mut Named<impl Eprint, impl Write + Seek>,
    out: &mut [u8; ROOM],
) -> Result<(), Failure>
    ensures { PackEnd result }
{
    let mut input = [0u8; BLOCK];
    let mut held = Held::new();
    let mut count = 0usize;
    for _ in 0..u64::MAX {
        let read = read_behind(list, &held, &mut input);
        let Ok(Some(n)) = read else {
            return end_read(read, file, &held, count, out);
        };
        count = take_block(file, count, &input[..n], &mut held, out)?;
    }
    Err(Failure::System)
}

// The list read from its beginning to its end, behind a head that has no count yet.
pub fn pack_stream(
    list: &mut Named<impl Eprint, impl Read>,
    file: &mut Named<impl Eprint, impl Write + Seek>,
) -> Result<(), Failure>
    ensures { PackEnd result }
{
    let mut out = [0u8; ROOM];
    let p = put_head(&mut out, 0);
    put_first(file, &out[..p])?;
    read_list(list, file, &mut out)
}

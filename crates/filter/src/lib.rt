// What the programs share: a list of requests on standard input, the header and the answers of a
// sheet on standard output. It holds two blocks and a reader, however long the list is.
#![tactic(auto)]

ghost use Rattle.std.specs.Prelude.{◌≤◌, ◌≡◌, [], length, IsOkUnless};
ghost use Rattle.answer.specs.Sheets.{longest_answer};
ghost use Rattle.lists.specs.Parts.{new_reader, read_from, closing};
ghost use Rattle.filter.specs.declared.Stop.TheVariants.{Unwritten};
ghost use Rattle.filter.specs.Output.{header_of};
ghost use Rattle.filter.specs.Turns.{BlockTurn, ReadTurn, Took, EndTurn};

use answer::Sheet;
use failures::{put_out, say_failed};
use lists::{Reader, close_list, take_part};
use std::io::{self, Read};

// How many bytes are read at once, and how many are written, at the most.
const ROOM: usize = 65536;

// Why a run stops before its list is answered to the end: it cannot be read, or an answer cannot be written.
#[derive(Clone, Copy, Debug, PartialEq, Eq)]
pub enum Stop {
    Unread,
    Unwritten,
}

// Nothing can be said of what the system does with bytes. What is handed to it can: the three that
// follow take besides the bytes what these must be.

// Writes the header of a sheet.
fn put_header(rt: &(impl Print + Eprint), sheet: Sheet, header: &[u8]) -> Result<(), Stop>
    requires { header.now ≡ header_of sheet }
    ensures { IsOkUnless result Unwritten }
{
    put_out(rt, header).map_err(|_| Stop::Unwritten)
}

// Writes what the reader r answers in a part of the list, with room for so many bytes.
fn put_answers(
    rt: &(impl Print + Eprint),
    sheet: Sheet,
    r: Reader,
    part: &[u8],
    room: usize,
    answers: &[u8],
) -> Result<(), Stop>
    requires { answers.now ≡ (read_from sheet room r [] part.now).text }
    ensures { IsOkUnless result Unwritten }
{
    put_out(rt, answers).map_err(|_| Stop::Unwritten)
}

// Writes what the reader r is owed at the end of the list.
fn put_closing(rt: &(impl Print + Eprint), r: Reader, answer: &[u8]) -> Result<(), Stop>
    requires { answer.now ≡ closing r }
    ensures { IsOkUnless result Unwritten }
{
    put_out(rt, answer).map_err(|_| Stop::Unwritten)
}

// Answers a block of the list. The room lent is enough for the longest answer, so that each call of
// the reader takes a byte at least: as in the three that follow, a type for a sheet and such room would be no plainer. Where an answer cannot be written the reader is as it was.
fn answer_block(
    rt: &(impl Print + Eprint),
    sheet: Sheet,
    reader: &mut Reader,
    block: &[u8],
    out: &mut [u8],
) -> Result<(), Stop>
    requires { longest_answer sheet ≤ length out.old }
    ensures { BlockTurn reader.old block.now reader.new result }
{
    let mut now = *reader;
    let mut at = 0usize;
    // By a place: of a slice that is cut in each turn it was not proved that it is the block's rest.
    while at < block.len() {
        let before = now;
        let taken = take_part(sheet, &mut now, &block[at..], out).unwrap();
        put_answers(
            rt,
            sheet,
            before,
            &block[at..],
            out.len(),
            &out[..taken.wrote],
        )?;
        at += taken.took;
    }
    *reader = now;
    Ok(())
}

// Answers what a `read` into `input` brought, by what it answered: whether there may be more.
fn answer_read(
    rt: &(impl Print + Eprint),
    sheet: Sheet,
    reader: &mut Reader,
    got: io::Result<usize>,
    input: &[u8],
    out: &mut [u8],
) -> Result<bool, Stop>
    requires { longest_answer sheet ≤ length out.old }
    ensures { ReadTurn got reader.old input.now reader.new result }
{
    match got {
        Ok(0) => Ok(false),
        Ok(n) => {
            answer_block(rt, sheet, reader, &input[..n.min(input.len())], out)?;
            Ok(true)
        }
        Err(error) => {
            say_failed(rt, "standard input", error);
            Err(Stop::Unread)
        }
    }
}

// Reads a block and answers it: whether there may be more.
fn read_block(
    rt: &(impl Print + Eprint),
    source: &mut impl Read,
    sheet: Sheet,
    reader: &mut Reader,
    input: &mut [u8],
    out: &mut [u8],
) -> Result<bool, Stop>
    requires { longest_answer sheet ≤ length out.old }
    ensures { Took reader.old reader.new }
{
    let got = source.read(input);
    answer_read(rt, sheet, reader, got, input, out)
}

// Reads the list from its beginning, with a new reader, as far as it can be read and answered. A proved loop has to
// end, and nothing says that the input does: the turns are counted up to a number that no run comes to.
fn read_list(
    rt: &(impl Print + Eprint),
    source: &mut impl Read,
    sheet: Sheet,
    reader: &mut Reader,
    input: &mut [u8],
    out: &mut [u8],
) -> Result<(), Stop>
    requires { (longest_answer sheet ≤ length out.old) × (reader.old ≡ new_reader) }
    ensures { Took new_reader reader.new }
{
    for _ in 0..u64::MAX {
        if !read_block(rt, source, sheet, reader, input, out)? {
            return Ok(());
        }
    }
    Err(Stop::Unread)
}

// Writes what a last line without an LF gets, once the list has ended. There is room for it.
fn end_list(
    rt: &(impl Print + Eprint),
    read: Result<(), Stop>,
    reader: Reader,
    out: &mut [u8],
) -> Result<(), Stop>
    requires { length (closing reader) ≤ length out.old }
    ensures { EndTurn read result }
{
    read?;
    let mut ended = reader;
    let wrote = close_list(&mut ended, out).unwrap();
    put_closing(rt, reader, &out[..wrote])
}

// The header that a sheet begins with.
#[tactic(auto, unfolding(crate::specs::Output::header_of, numerals::specs::Render::ascii))]
fn header_of(sheet: Sheet) -> &'static [u8]
    ensures { result.now ≡ header_of sheet }
{
    match sheet {
        Sheet::Completion => b"dip W ZTOR RRUP Z25 from\n",
        Sheet::Prediction | Sheet::Period(_) => b"",
    }
}

// Writes the header and answers the list: well where all of it was read and every answer written. Nothing is
// written after what could not be.
pub fn run(rt: &(impl Print + Eprint + Input), sheet: Sheet) -> Result<(), Stop> {
    put_header(rt, sheet, header_of(sheet))?;
    let mut source = rt.reader();
    let mut input = [0u8; ROOM];
    let mut out = [0u8; ROOM];
    let mut reader = Reader::new();
    let read = read_list(rt, &mut source, sheet, &mut reader, &mut input, &mut out);
    end_list(rt, read, reader, &mut out)
}

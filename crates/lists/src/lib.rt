// A list of requests read in parts, cut at any place: the answer to each whole line, as far as lent
// bytes reach, and the unfinished line held from part to part.
#![tactic(auto)]

ghost use Rattle.std.specs.Prelude.{◌≡◌, ◌↔◌, IsTrue};
ghost use Rattle.lent.specs.Lent.{LentWritten};
ghost use Rattle.answer.specs.Sheets.{answer_to};
ghost use Rattle.lists.specs.Parts.{line_in, new_reader, fresh, grown, closing, PartTaken, Closed};

use answer::{Sheet, answer_line};
use lines::write_no;
use refusals::Refusal;
use text::LONGEST;

// An unfinished line: its first bytes, and how many it has. A count above LONGEST says that the line
// is too long; its bytes are of no use then. A buffer with its length beside: there is no heap, and these
// are the bytes that a caller in C lends.
#[derive(Clone, Copy)]
pub struct Reader {
    pub held: [u8; LONGEST],
    pub count: u8,
}

// The count of a line that is too long.
const OVER: u8 = LONGEST as u8 + 1;

// What ends a line.
const LF: u8 = b'\n';

impl Reader {
    // A reader before the first byte of a list.
    pub fn new() -> Self
        ensures { result ≡ new_reader }
    {
        Reader {
            held: [0; LONGEST],
            count: 0,
        }
    }

    // One byte more of its line.
    #[tactic(auto, unfolding(crate::specs::Parts::grown))]
    fn push(&mut self, c: u8)
        ensures { self.new ≡ grown self.old c }
    {
        let count = self.count;
        if (count as usize) < LONGEST {
            self.held[count as usize] = c;
            self.count = count + 1;
        } else {
            self.count = OVER;
        }
    }

    // Its line is answered: another begins.
    fn clear(&mut self)
        ensures { self.new ≡ fresh self.old }
    {
        self.count = 0;
    }

    // Whether its line has no byte.
    fn is_empty(&self) -> bool
        ensures { IsTrue result ↔ (self.now.count ≡ 0) }
    {
        self.count == 0
    }

    // The answer to the line held, into `out`; or TooLong.
    #[tactic(auto, using(crate::proofs::HeldLaws::held_whole, crate::proofs::HeldLaws::over_held))]
    fn answer(&self, sheet: Sheet, out: &mut [u8]) -> Result<usize, Refusal>
        ensures { LentWritten out.old (answer_to sheet (line_in self.now)) result out.new }
    {
        if LONGEST < self.count as usize {
            return write_no(out, Refusal::Malformed);
        }
        answer_line(sheet, &self.held[..self.count as usize], out)
    }

    // The answer at the end of a list, into `out`: an unfinished line is malformed, of whatever length; or
    // TooLong.
    fn answer_end(&self, out: &mut [u8]) -> Result<usize, Refusal>
        ensures { LentWritten out.old (closing self.now) result out.new }
    {
        if self.is_empty() {
            return Ok(0);
        }
        write_no(out, Refusal::Malformed)
    }
}

// How many bytes of a part were taken, and how many bytes of answers were written.
#[derive(Clone, Copy)]
pub struct Taken {
    pub took: usize,
    pub wrote: usize,
}

// Takes a part of a list. It stops before the LF of a line whose answer does not fit behind those
// written, so that the caller offers the bytes not taken again with more room. Its only refusal is
// TooLong, where nothing was written before that LF: then no byte was taken, and the reader and `out`
// are as they were.
pub fn take_part(
    sheet: Sheet,
    reader: &mut Reader,
    part: &[u8],
    out: &mut [u8],
) -> Result<Taken, Refusal>
    ensures { PartTaken sheet reader.old part.now out.old result reader.new out.new }
{
    let mut now = *reader;
    let mut wrote = 0;
    for (i, c) in part.iter().enumerate() {
        if *c != LF {
            now.push(*c);
            continue;
        }
        match now.answer(sheet, &mut out[wrote..]) {
            Ok(n) => {
                wrote += n;
                now.clear();
            }
            Err(refusal) if wrote == 0 => return Err(refusal),
            Err(_) => {
                *reader = now;
                return Ok(Taken { took: i, wrote });
            }
        }
    }
    *reader = now;
    Ok(Taken {
        took: part.len(),
        wrote,
    })
}

// Ends a list, and answers how many bytes were written. The reader after it is a new one, so that another
// list may begin. Its only refusal is TooLong, and then the reader and `out` are as they were.
pub fn close_list(reader: &mut Reader, out: &mut [u8]) -> Result<usize, Refusal>
    ensures { Closed reader.old out.old result reader.new out.new }
{
    let n = reader.answer_end(out)?;
    *reader = Reader::new();
    Ok(n)
}

// A completion, or a refusal, as a line of text in lent bytes.
#![tactic(auto)]

mod numbered;
mod write;

ghost use Rattle.lent.specs.Lent.{LentWritten};
ghost use Rattle.lines.specs.Lines.{completion_line};

pub use numbered::Numbered;
use refusals::Refusal;
use request::Request;
use write::write_ok;
pub use write::{room, write_no};

// The line of an answer. Its only refusal is TooLong, and then no byte of `out` has changed.
#[tactic(auto, unfolding(crate::specs::Lines::completion_line))]
pub fn write_completion<N: Numbered>(
    out: &mut [u8],
    answer: Result<Request, N>,
) -> Result<usize, Refusal>
    ensures { LentWritten out.old (completion_line N.number answer) result out.new }
{
    match answer {
        Ok(c) => write_ok(out, c),
        Err(refusal) => write_no(out, refusal),
    }
}

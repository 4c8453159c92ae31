// A list read from one file and its file written to another, and back, block by block, in buffers whose size no
// list changes. What fails is said where it fails.
#![tactic(auto)]

mod held;
mod named;
mod pack;
mod unpack;

ghost use Rattle.std.specs.Prelude.{◌≡◌};
ghost use Rattle.file_streams.specs.declared.Failure.TheVariants.{Refused, System};

use failures::Failed;
pub use named::Named;
pub use pack::pack_stream;
use refusals::Refusal;
pub use unpack::unpack_stream;

// How many bytes are written at once, at the most.
const ROOM: usize = 65536;

// Why a run ends before all is written: it is refused, or the system failed.
#[derive(Clone, Copy, Debug, PartialEq, Eq)]
pub enum Failure {
    Refused(Refusal),
    System,
}

impl From<Refusal> for Failure {
    ghost from_gives = { λ refusal failure. failure ≡ Refused refusal };

    fn from(refusal: Refusal) -> Failure {
        Failure::Refused(refusal)
    }
}

impl From<Failed> for Failure {
    ghost from_gives = { λ _ failure. failure ≡ System };

    fn from(_: Failed) -> Failure {
        Failure::System
    }
}

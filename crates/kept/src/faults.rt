// Why a call does not do what it is asked: it is wrong in itself, or it is refused; and the number by which
// it is told.
ghost use Rattle.std.specs.Prelude.{◌≡◌};
ghost use Rattle.kept.specs.Faults.{IsFaultOf, IsNumberOf, number_in};

use refusals::Refusal;

// The number of a call that is wrong in itself, which is no refusal's.
const MISUSE: u32 = 255;

#[derive(Clone, Copy, Debug, PartialEq, Eq)]
pub enum Fault {
    // Too few bytes of a reader or a record, or a number that is no sheet's.
    Misuse,
    // The refusal of what was asked for.
    Refused(Refusal),
}

impl From<Refusal> for Fault {
    ghost from_gives = { IsFaultOf };

    fn from(refusal: Refusal) -> Fault {
        Fault::Refused(refusal)
    }
}

impl From<Fault> for u32 {
    ghost from_gives = { IsNumberOf };

    fn from(fault: Fault) -> u32 {
        match fault {
            Fault::Misuse => MISUSE,
            Fault::Refused(refusal) => u32::from(refusal),
        }
    }
}

// The number that is told in C: 0, or the fault's.
pub fn number_in(told: Result<(), Fault>) -> u32
    ensures { result ≡ number_in told }
{
    match told {
        Ok(()) => 0,
        Err(fault) => u32::from(fault),
    }
}

// The refusals by name with their numbers, in the order in which they are tested: document 01's table from
// the top. No other file of the code has the numbers. specs/Order says the same, and the contract of each
// function that refuses holds the one to the other.

#![tactic(auto)]

ghost use Rattle.std.specs.Prelude.{Some, decimal};
ghost use Rattle.refusals.specs.Order.{number_of, IsNumberOf};

use std::error::Error;
use std::fmt;

// Why a request, a file or a call is refused.
#[derive(Clone, Copy, Debug, PartialEq, Eq)]
pub enum Refusal {
    // The line cannot be read.
    Malformed = 14,
    // A figure is already marked as estimated by us.
    Marked = 26,
    // The file has another mark or version.
    NoFile = 19,
    // The file is longer or shorter than its count says, or has too many records.
    FileLength = 20,
    // A field of a file's record.
    FileField = 21,
    // The rake.
    Rake = 1,
    // The magnitude, by the style of fault.
    Magnitude = 2,
    // The soil's speed.
    Vs30 = 3,
    // A given dip.
    Dip = 4,
    // A given width of the rupture.
    Width = 5,
    // A given depth of the hypocentre.
    Hypocentre = 6,
    // The depth of the rupture's top, given or completed.
    Top = 7,
    // The distance to the rupture's projection.
    Rjb = 8,
    // The azimuth.
    Azimuth = 9,
    // The site is above the rupture, and its distance is blank.
    Above = 10,
    // The distance to the rupture, given or completed.
    Rrup = 11,
    // A given distance to the rupture that is too short.
    TooShort = 12,
    // A given distance to the rupture that is too long for the fault.
    TooFar = 18,
    // A depth of the basin, given or completed.
    Basin = 13,
    // There is no such measure.
    NoMeasure = 15,
    // The period is not from the shortest to the longest that is tabulated.
    NoPeriod = 17,
    // The answer is longer than what is lent for it.
    TooLong = 16,
}

impl From<Refusal> for u32 {
    ghost from_gives = { IsNumberOf };

    fn from(refusal: Refusal) -> u32 {
        refusal as u32
    }
}

// As its number.
impl fmt::Display for Refusal {
    ghost output = { λ refusal. Some (decimal (number_of refusal)) };

    fn fmt<W: fmt::Write>(&self, f: &mut fmt::Formatter<W>) -> fmt::Result {
        let number = u32::from(*self);
        write!(f, "{number}")
    }
}

impl Error for Refusal {}

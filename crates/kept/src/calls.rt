// A list in parts, its reader in lent bytes. Whatever stands in them, it is some reader. A fault leaves all
// that was lent as it was. How many bytes were taken and written goes into lent numbers, as C takes them.
ghost use Rattle.std.specs.Prelude.{◌≡◌, ◌<◌, ◌≤◌, length, MatchResult};
ghost use Rattle.kept.specs.declared.faults.Fault.TheVariants.{Misuse};
ghost use Rattle.kept.specs.Faults.{number_in};
ghost use Rattle.kept.specs.Kept.{reader_size};
ghost use Rattle.kept.specs.Calls.{loan, numbered, begin_told, part_told, close_told};

use crate::faults::Fault;
use crate::{READER, put_reader, reader_in};
use answer::Sheet;
use lists::{Reader, close_list, take_part};

// The sheet of a number.
#[tactic(auto, unfolding(crate::specs::Calls::numbered))]
pub fn sheet_numbered(n: u64) -> Option<Sheet>
    ensures { result ≡ numbered n }
{
    match n {
        0 => Some(Sheet::Completion),
        1 => Some(Sheet::Prediction),
        _ => None,
    }
}

// Misuse where too few bytes are lent for a reader.
fn check_size(reader: &[u8]) -> Result<(), Fault>
    ensures { MatchResult result (λ _. reader_size ≤ length reader.now) (λ fault. (fault ≡ Misuse) × (length reader.now < reader_size)) }
{
    if reader.len() < READER {
        return Err(Fault::Misuse);
    }
    Ok(())
}

// A reader before the first byte of a list; Misuse where it is lent too few bytes.
pub fn begin_reader(reader: &mut [u8]) -> Result<(), Fault>
    ensures { (number_in result, reader.new) ≡ begin_told reader.old }
{
    check_size(reader)?;
    put_reader(reader, Reader::new());
    Ok(())
}

// A part of a list, with how many of its bytes were taken and how many written; or TooLong.
pub fn take_in(
    reader: &mut [u8],
    sheet: u64,
    part: &[u8],
    out: &mut [u8],
    took: &mut u64,
    wrote: &mut u64,
) -> Result<(), Fault>
    ensures { (number_in result, loan reader.new out.new took.new wrote.new) ≡ part_told (numbered sheet) part.now (loan reader.old out.old took.old wrote.old) }
{
    check_size(reader)?;
    let sheet = sheet_numbered(sheet).ok_or(Fault::Misuse)?;
    let mut now = reader_in(reader);
    let taken = take_part(sheet, &mut now, part, out)?;
    put_reader(reader, now);
    *took = taken.took as u64;
    *wrote = taken.wrote as u64;
    Ok(())
}

// The end of a list, with how many bytes were written, and a new reader; or TooLong.
pub fn close_in(reader: &mut [u8], out: &mut [u8], wrote: &mut u64) -> Result<(), Fault>
    ensures { (number_in result, loan reader.new out.new 0 wrote.new) ≡ close_told (loan reader.old out.old 0 wrote.old) }
{
    check_size(reader)?;
    let mut now = reader_in(reader);
    let n = close_list(&mut now, out)?;
    put_reader(reader, now);
    *wrote = n as u64;
    Ok(())
}

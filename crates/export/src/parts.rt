// A list in parts by the names of C: each function is one of `kept`.
ghost use Rattle.std.specs.Prelude.{◌≡◌};
ghost use Rattle.kept.specs.Calls.{loan, numbered, begin_told, part_told, close_told};

use kept::{begin_reader, close_in, number_in, take_in};

// A reader before the first byte of a list: 0, or 255 where it is lent too few bytes.
pub fn xanhupive_reader_begin(reader: &mut [u8]) -> u32
    ensures { (result, reader.new) ≡ begin_told reader.old }
{
    number_in(begin_reader(reader))
}

// A part of a list: 0, with how many of its bytes were taken and how many written; or 16; or 255 for too
// few bytes of a reader or a number that is no sheet's.
pub fn xanhupive_take_part(
    reader: &mut [u8],
    sheet: u64,
    part: &[u8],
    out: &mut [u8],
    took: &mut u64,
    wrote: &mut u64,
) -> u32
    ensures { (result, loan reader.new out.new took.new wrote.new) ≡ part_told (numbered sheet) part.now (loan reader.old out.old took.old wrote.old) }
{
    number_in(take_in(reader, sheet, part, out, took, wrote))
}

// The end of a list: 0, with how many bytes were written, and a new reader; or 16; or 255.
pub fn xanhupive_close(reader: &mut [u8], out: &mut [u8], wrote: &mut u64) -> u32
    ensures { (result, loan reader.new out.new 0 wrote.new) ≡ close_told (loan reader.old out.old 0 wrote.old) }
{
    number_in(close_in(reader, out, wrote))
}

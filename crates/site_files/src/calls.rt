// Writer and reader as the calls of C, which has no `Result`: they answer with a number, and the number of bytes
// written goes into a lent one, which a refusal leaves as it was.
ghost use Rattle.std.specs.Prelude.{◌≡◌};
ghost use Rattle.site_files.specs.Format.{count_in, pack_of, unpack_of};
ghost use Rattle.site_files.specs.Given.{told, Told, records_found, counted};

use crate::files::{look_through, pack, unpack};
use crate::head::count_in;
use refusals::Refusal;

// Tells of what was written, as the calls of C do: 0 and how many bytes, or the error's number.
#[tactic(auto, unfolding(crate::specs::Given::told))]
pub fn tell(written: Result<usize, u32>, wrote: &mut u64) -> u32
    ensures { (result, wrote.new) ≡ told (λ n. n) written wrote.old }
{
    match written {
        Ok(n) => {
            *wrote = n as u64;
            0
        }
        Err(n) => n,
    }
}

// The writer: 0, with how many bytes were written; or Malformed, FileLength or TooLong.
pub fn pack_in(list: &[u8], file: &mut [u8], wrote: &mut u64) -> u32
    ensures { Told (pack_of list.now) file.old wrote.old result file.new wrote.new }
{
    tell(pack(list, file).map_err(u32::from), wrote)
}

// The reader: 0, with how many bytes were written; or NoFile, FileLength, FileField or TooLong.
pub fn unpack_in(file: &[u8], list: &mut [u8], wrote: &mut u64) -> u32
    ensures { Told (unpack_of file.now) list.old wrote.old result list.new wrote.new }
{
    tell(unpack(file, list).map_err(u32::from), wrote)
}

// How many records a file has that the reader takes.
fn record_count(file: &[u8]) -> Result<usize, Refusal>
    ensures { result ≡ records_found (unpack_of file.now) (count_in file.now) }
{
    look_through(file)?;
    Ok(count_in(file))
}

// The same: 0, with their number; or NoFile, FileLength or FileField.
pub fn records_in(file: &[u8], count: &mut u64) -> u32
    ensures { (result, count.new) ≡ counted (unpack_of file.now) (count_in file.now) count.old }
{
    tell(record_count(file).map_err(u32::from), count)
}

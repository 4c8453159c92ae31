// A list's reader in bytes that a caller lends between calls: those of its unfinished line, and then
// how many these are. Any bytes are some reader.
#![tactic(auto)]

mod calls;
mod faults;

ghost use Rattle.std.specs.Prelude.{◌≡◌, ◌≤◌, length};
ghost use Rattle.lent.specs.Lent.{Written};
ghost use Rattle.kept.specs.Kept.{reader_size, reader_bytes, reader_in};

pub use calls::{begin_reader, close_in, sheet_numbered, take_in};
pub use faults::{Fault, number_in};
use lent::{put_byte, put_slice};
use lists::Reader;
use text::LONGEST;

// How many bytes a reader has.
const READER: usize = LONGEST + 1;

// The reader in lent bytes.
fn reader_in(b: &[u8]) -> Reader
    requires { reader_size ≤ length b.now }
    ensures { result ≡ reader_in b.now }
{
    let mut held = [0; LONGEST];
    held.copy_from_slice(&b[..LONGEST]);
    Reader {
        held,
        count: b[LONGEST],
    }
}

// Writes a reader at the start of lent bytes.
fn put_reader(b: &mut [u8], r: Reader) -> usize
    requires { reader_size ≤ length b.old }
    ensures { Written b.old 0 (reader_bytes r) result b.new }
{
    let at = put_slice(b, 0, &r.held);
    put_byte(b, at, r.count)
}

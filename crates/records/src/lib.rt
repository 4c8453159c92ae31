// A record of a site file: a request in 65 bytes, written into lent bytes from a place on, and read. Each
// function that writes returns the place after what it wrote, and leaves every other byte as it was.
#![tactic(auto)]

mod numbers;
mod read;
mod write;

pub use numbers::{put_short, short_at};
pub use read::record_in;
pub use write::put_record;

// How many bytes a record has.
pub const RECORD: usize = 65;

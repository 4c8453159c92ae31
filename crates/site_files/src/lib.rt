// A file for site lists, written from request lines and read into them, in lent bytes. A refusal changes none
// of them.
#![tactic(auto)]

mod calls;
mod files;
mod from_lines;
mod from_records;
mod head;

pub use calls::{pack_in, records_in, tell, unpack_in};
pub use files::{pack, unpack};
pub use from_lines::put_records;
pub use from_records::{put_lines, survey_records};
pub use head::{HEAD, MOST, count_in, is_marked, put_head};

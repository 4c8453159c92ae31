// The text form of a request: the bytes of a line to the request that they stand for. Nothing here
// knows an estimate or the model.
#![tactic(auto)]

mod figures;
mod read;

pub use read::{LONGEST, read_line, request_of, signed_at};

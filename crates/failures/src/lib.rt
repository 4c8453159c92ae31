// What failed, said on standard error: a line with its name and the reason.
#![tactic(auto)]

use std::fmt::InlineText;
use std::io::Error;

// How many bytes hold the system's words for any of its errors, and the number behind them.
const WORDS: usize = 128;

// Something failed, and what and why has been said.
#[derive(Clone, Copy, Debug, PartialEq, Eq)]
pub struct Failed;

// An error's words without the number behind them.
fn words_of(text: &str) -> &str {
    text.find(" (os error ").map_or(text, |n| &text[..n])
}

// Says what failed and why. Whether it can be written changes nothing.
pub fn say(rt: &impl Eprint, what: &str, why: &str) -> Failed {
    let _ = eprintln!(rt; "{what}: {why}");
    Failed
}

// Says what failed, and the system's words for the error.
pub fn say_failed(rt: &impl Eprint, what: &str, error: Error) -> Failed {
    let text = InlineText::<WORDS>::of(error);
    say(rt, what, words_of(text.as_str()))
}

// Writes to standard output, or says why it cannot.
pub fn put_out(rt: &(impl Print + Eprint), s: &[u8]) -> Result<(), Failed> {
    rt.write_all(s)
        .map_err(|error| say_failed(rt, "standard output", error))
}

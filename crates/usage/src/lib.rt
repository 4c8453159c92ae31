// How a program is used: how many arguments it is given, what they ask for, what it says of itself, and the exit
// status.
#![tactic(auto)]

ghost use Rattle.std.specs.Prelude.{◌≡◌, ◌≤◌, length};
ghost use Rattle.usage.specs.Statuses.{IsStatusOf, status_of, EndsAs, AnswersAs};

use failures::{Failed, put_out};
use std::env::FillError;
use std::rt::Env;

// How a program ends: it has done what it was asked, it could not, or its arguments ask for nothing that it does.
#[derive(Clone, Copy, Debug, PartialEq, Eq)]
pub enum Status {
    Done = 0,
    Failed = 1,
    Misused = 2,
}

// The exit status.
impl From<Status> for u8 {
    ghost from_gives = { IsStatusOf };

    fn from(status: Status) -> u8 {
        status as u8
    }
}

// By whether what was asked was done.
impl<E: Drop> From<Result<(), E>> for Status {
    ghost from_gives = { λ end status. status ≡ status_of end };

    fn from(end: Result<(), E>) -> Status {
        match end {
            Ok(()) => Status::Done,
            Err(_) => Status::Failed,
        }
    }
}

// What the arguments ask for: to run with something, the help, or nothing that the program does.
#[derive(Clone, Copy, Debug, PartialEq, Eq)]
pub enum Asked<T> {
    Run(T),
    Help,
    Misused,
}

// What a program says of itself: one line of usage, and the help in its parts.
#[derive(Clone, Copy)]
pub struct Texts<'a> {
    pub usage: &'a str,
    pub help: &'a [&'a str],
}

impl Texts<'_> {
    // The help on standard output.
    fn put_help(&self, rt: &(impl Print + Eprint)) -> Result<(), Failed> {
        for part in self.help {
            put_out(rt, part.as_bytes())?;
        }
        Ok(())
    }
}

// How many arguments there are, the program's own name counted, up to so many.
pub fn argument_count(rt: &impl Env, most: usize) -> usize
    ensures { result ≤ most }
{
    let mut word = [0u8; 1];
    for i in 0..most {
        if let Err(FillError::NotPresent) = rt.arg(i, &mut word) {
            return i;
        }
    }
    most
}

// An argument, which goes to the start of a buffer: no bytes where it is missing or does not fit.
pub fn read_argument<'a>(rt: &impl Env, i: usize, word: &'a mut [u8]) -> &'a [u8]
    ensures { length result.now ≤ length word.old }
{
    let n = rt.arg(i, word).unwrap_or(0);
    &word[..n]
}

// Does what is asked of a program. Whether the line of usage can be written changes nothing.
pub fn serve<T, E: Drop, F: FnOnce(T) -> Result<(), E>>(
    rt: &(impl Print + Eprint),
    texts: Texts,
    asked: Asked<T>,
    run: F,
) -> Status
    requires { F.IsAlwaysCallable run }
    ensures ends { EndsAs asked result }
    ensures answers { AnswersAs (F.post run) asked result }
{
    match asked {
        Asked::Run(task) => run(task).into(),
        Asked::Help => texts.put_help(rt).into(),
        Asked::Misused => {
            let _ = rt.eprintln(texts.usage);
            Status::Misused
        }
    }
}

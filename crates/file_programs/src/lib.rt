// The programs that write and read site files, as functions that return the exit status.
#![tactic(auto)]

mod program;
mod texts;

ghost use Rattle.std.specs.Prelude.{◌≤◌, ◌≡◌, length, IfOk};
ghost use Rattle.whole_files.specs.Names.{longest_path};
ghost use Rattle.usage.specs.Statuses.{EndsAs};
ghost use Rattle.file_programs.specs.Paths.{asked_of, Finished};

use crate::program::{Pack, Program, Unpack};
use failures::{Failed, say, say_failed};
use file_streams::{Failure, Named};
use std::env::FillError;
use std::fs;
use std::fs::OpenFile;
use std::io::{Read, Seek, Write};
use std::process::Process;
use std::rt::{Env, Files};
use std::str::from_utf8;
use usage::{Asked, Status, argument_count, read_argument};
use whole_files::{Begun, NAME, PATH, begin, say_no};

// One more than the arguments that a program takes, its own name counted.
const MOST: usize = 4;

// What so many arguments ask for, the program's own name counted.
fn asked_of(count: usize, help: bool) -> Asked<()>
    ensures { result ≡ asked_of count help }
{
    match count {
        3 => Asked::Run(()),
        2 if help => Asked::Help,
        _ => Asked::Misused,
    }
}

// Whether the first argument is the word for help. One that is longer than the buffer is not.
fn is_help(rt: &impl Env) -> bool {
    let mut word = [0u8; 64];
    read_argument(rt, 1, &mut word) == b"--help".as_slice()
}

// What the program was asked.
fn read_arguments(rt: &impl Env) -> Asked<()> {
    asked_of(argument_count(rt, MOST), is_help(rt))
}

// Ends a run: the target is kept where it is whole, and else taken away.
fn finish<F: OpenFile + Drop>(
    rt: &(impl Files + Eprint),
    end: Result<(), Failure>,
    begun: Begun<F>,
) -> Result<(), Failed>
    ensures { Finished end result }
{
    let Err(failure) = end else {
        return begun.keep(rt);
    };
    begun.discard(rt);
    if let Failure::Refused(refusal) = failure {
        say_no(rt, u32::from(refusal));
    }
    Err(Failed)
}

// From one file that is open to a new one at a path.
fn write_file<'a, R: Files + Eprint>(
    rt: &'a R,
    process: Process,
    program: impl Program,
    from: &mut Named<R, R::File>,
    target: &'a str,
) -> Result<(), Failed>
    requires { length target.now ≤ longest_path }
{
    let mut name = [0u8; NAME];
    let mut begun = begin(rt, process, target, &mut name).map_err(|error| say_failed(
        rt, target, error,
    ))?;
    let to = Named {
        rt,
        path: target,
        file: &mut begun.file,
    };
    let end = program.stream(from, to);
    finish(rt, end, begun)
}

// A path, an argument that goes to the start of a buffer, as text; or says why there is none.
fn read_path<'a>(
    rt: &(impl Env + Eprint),
    i: usize,
    what: &str,
    path: &'a mut [u8],
) -> Result<&'a str, Failed>
    ensures { IfOk result (λ s. length s.now ≤ length path.old) }
{
    match rt.arg(i, path) {
        Ok(n) => from_utf8(&path[..n]).map_err(|_| say(rt, what, "not UTF-8")),
        Err(FillError::TooLong) => Err(say(rt, what, "File name too long")),
        Err(FillError::NotPresent) => Err(say(rt, what, "Invalid argument")),
    }
}

// From the file at one path to that at another.
fn run<R: Files + Env + Eprint>(
    rt: &R,
    process: Process,
    program: impl Program,
) -> Result<(), Failed> {
    let mut from_bytes = [0u8; PATH];
    let mut to_bytes = [0u8; PATH];
    let path = read_path(rt, 1, "the first path", &mut from_bytes)?;
    let target = read_path(rt, 2, "the second path", &mut to_bytes)?;
    let file = fs::open(rt, path).map_err(|error| say_failed(rt, path, error))?;
    let mut from = Named { rt, path, file };
    write_file(rt, process, program, &mut from, target)
}

// Does what is asked of a program, and returns how it ends.
fn serve<R: Files + Env + Print + Eprint>(
    rt: &R,
    process: Process,
    program: impl Program,
    asked: Asked<()>,
) -> Status
    ensures { EndsAs asked result }
{
    usage::serve(rt, program.texts(), asked, |()| run(rt, process, program))
}

// The program that writes a file of a list.
pub fn xanhupive_program_pack(rt: &(impl Files + Env + Print + Eprint), process: Process) -> u8
    ensures { result ≤ 2 }
{
    serve(rt, process, Pack, read_arguments(rt)).into()
}

// The program that writes the list of a file.
pub fn xanhupive_program_unpack(rt: &(impl Files + Env + Print + Eprint), process: Process) -> u8
    ensures { result ≤ 2 }
{
    serve(rt, process, Unpack, read_arguments(rt)).into()
}

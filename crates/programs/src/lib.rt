// The programs, as functions that return the exit status.
#![tactic(auto)]

mod texts;

ghost use Rattle.std.specs.Prelude.{◌≤◌, ◌≡◌};
ghost use Rattle.usage.specs.Statuses.{EndsAs};
ghost use Rattle.programs.specs.Arguments.{word_of, sheet_of, asked_alone, period_asked, asked_with, asked_of};

use answer::Sheet;
use numerals::plain_number;
use std::rt::Env;
use usage::{Asked, Status, Texts, argument_count, read_argument};

// One more than the arguments that any program takes, its own name counted.
const MOST: usize = 4;

// Which program it is: the two differ in a sheet, a word and their texts, and run alike, so that a trait of them would
// be no plainer.
#[derive(Clone, Copy)]
enum Program {
    Complete,
    Predict,
}

// A word that a program knows, or any other.
#[derive(Clone, Copy)]
enum Word {
    Help,
    Period,
    Unknown,
}

// The word that an argument is.
fn word_of(s: &[u8]) -> Word
    ensures { result ≡ word_of s.now }
{
    if s == b"--help".as_slice() {
        return Word::Help;
    }
    if s == b"--period".as_slice() {
        return Word::Period;
    }
    Word::Unknown
}

impl Program {
    // The sheet of a program that is asked for nothing else.
    fn sheet(self) -> Sheet
        ensures { result ≡ sheet_of self }
    {
        match self {
            Program::Complete => Sheet::Completion,
            Program::Predict => Sheet::Prediction,
        }
    }

    // What it says of itself.
    fn texts(self) -> Texts<'static> {
        match self {
            Program::Complete => texts::COMPLETE,
            Program::Predict => texts::PREDICT,
        }
    }
}

// What one argument alone asks for.
fn asked_alone(word: Word) -> Asked<Sheet>
    ensures { result ≡ asked_alone word }
{
    match word {
        Word::Help => Asked::Help,
        Word::Period | Word::Unknown => Asked::Misused,
    }
}

// What a number behind the word for a period asks for.
fn period_asked(number: Option<u64>) -> Asked<Sheet>
    ensures { result ≡ period_asked number }
{
    match number {
        Some(t) => Asked::Run(Sheet::Period(t)),
        None => Asked::Misused,
    }
}

// What two arguments ask for: the predicting program's row at a period.
fn asked_with(program: Program, word: Word, number: Option<u64>) -> Asked<Sheet>
    ensures { result ≡ asked_with program word number }
{
    match (program, word) {
        (Program::Predict, Word::Period) => period_asked(number),
        _ => Asked::Misused,
    }
}

// What is asked of a program by so many arguments, its own name counted, of which these two follow it.
#[tactic(auto, unfolding(crate::specs::Arguments::asked_of))]
fn asked_of(program: Program, count: usize, first: Word, second: Option<u64>) -> Asked<Sheet>
    ensures { result ≡ asked_of program count first second }
{
    if count < 2 {
        return Asked::Run(program.sheet());
    }
    if count < 3 {
        return asked_alone(first);
    }
    if count < 4 {
        return asked_with(program, first, second);
    }
    Asked::Misused
}

// What the program was asked. An argument that is missing, empty or longer than any word or number that is
// known has no bytes here.
fn read_arguments(rt: &impl Env, program: Program) -> Asked<Sheet> {
    let mut word = [0u8; 64];
    let mut number = [0u8; 64];
    let first = word_of(read_argument(rt, 1, &mut word));
    let second = plain_number(read_argument(rt, 2, &mut number));
    asked_of(program, argument_count(rt, MOST), first, second)
}

// Does what is asked of a program, and returns how it ends.
fn serve(rt: &(impl Print + Eprint + Input), program: Program, asked: Asked<Sheet>) -> Status
    ensures { EndsAs asked result }
{
    usage::serve(rt, program.texts(), asked, |sheet| filter::run(rt, sheet))
}

// The completing program.
pub fn xanhupive_program_complete(rt: &(impl Print + Eprint + Input + Env)) -> u8
    ensures { result ≤ 2 }
{
    serve(rt, Program::Complete, read_arguments(rt, Program::Complete)).into()
}

// The predicting program.
pub fn xanhupive_program_predict(rt: &(impl Print + Eprint + Input + Env)) -> u8
    ensures { result ≤ 2 }
{
    serve(rt, Program::Predict, read_arguments(rt, Program::Predict)).into()
}

// The program that writes the list of a file. Its exit status is what `file_programs` returns.
#![tactic(auto)]

use file_programs::xanhupive_program_unpack;
use std::process::ExitCode;

fn main(rt: HostRuntime) -> ExitCode {
    ExitCode::from(xanhupive_program_unpack(&rt, rt.process()))
}

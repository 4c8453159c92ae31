// The program that writes a file of a list. Its exit status is what `file_programs` returns.
#![tactic(auto)]

use file_programs::xanhupive_program_pack;
use std::process::ExitCode;

fn main(rt: HostRuntime) -> ExitCode {
    ExitCode::from(xanhupive_program_pack(&rt, rt.process()))
}

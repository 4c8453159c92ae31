// The predicting program: a list of requests on standard input, on standard output the lines of the
// 24 measures of each, or the one line of its refusal. Its exit status is what `programs` returns.
#![tactic(auto)]

use programs::xanhupive_program_predict;
use std::process::ExitCode;

fn main(rt: HostRuntime) -> ExitCode {
    ExitCode::from(xanhupive_program_predict(&rt))
}

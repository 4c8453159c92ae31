// The completing program: a list of requests on standard input, a header and one answer line a
// request on standard output. Its exit status is what `programs` returns.
#![tactic(auto)]

use programs::xanhupive_program_complete;
use std::process::ExitCode;

fn main(rt: HostRuntime) -> ExitCode {
    ExitCode::from(xanhupive_program_complete(&rt))
}

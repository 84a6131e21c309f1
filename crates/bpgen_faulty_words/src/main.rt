//! The program with a word too many: status 2, and nothing on standard output.
#![tactic(auto)]

use bp_run::start;
use std::process::ExitCode;

fn main(rt: HostRuntime) -> ExitCode {
    start(&rt, rt)
}

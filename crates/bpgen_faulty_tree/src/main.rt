//! The program on a tree with a fault: status 1, and nothing on standard output.
#![tactic(auto)]

use bp_run::start;
use std::process::ExitCode;

fn main(rt: HostRuntime) -> ExitCode {
    start(&rt, rt)
}

//! The program. All that it does stands in the crate `bp_run`; whole runs are tested in crates of tests alone.
#![tactic(auto)]

use bp_run::start;
use std::process::ExitCode;

fn main(rt: HostRuntime) -> ExitCode {
    start(&rt, rt)
}

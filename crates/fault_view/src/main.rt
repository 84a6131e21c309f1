//! Shows faults of bpgen where they are: behind each fault line of standard input it prints the line of the file with a
//! caret under the column, and the known names that are nearest to an unknown one. All other lines are passed on.
//!
//! Lines flow in, and the same lines flow out with notes behind them. It is measured by `specs/View.antt`, the text
//! that is printed, over `specs/Lines.antt`, what is a fault line, `specs/Excerpts.antt`, the quoted line with its
//! caret, and `specs/Nearest.antt` of `near_names`, the nearest names.
#![tactic(auto)]

mod cut;
mod excerpt;
mod fault_line;
mod files;
mod help;
mod input;
mod known;
mod laws;
mod module_names;
mod note;
mod number;
mod program;
#[cfg(test)]
mod tests;
mod unknown;
mod view;

use program::start;
use std::process::ExitCode;

fn main(rt: HostRuntime) -> ExitCode {
    start(rt)
}

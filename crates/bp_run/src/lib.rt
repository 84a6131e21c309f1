//! All that the program bpgen does, as a library: words, a store and streams flow in, and files, lines
//! and an exit status flow out.
//!
//! `run` does it over any store, sinks and gate, and `start` hands in the real ones. It is measured by
//! `specs/Run.antt`, what each exit status says of a command, whichever it is, over `specs/Description.antt`, what a
//! command is, and `specs/Commands.antt`, a row for each command.
#![tactic(auto)]

mod command;
mod deliver;
mod end;
pub mod laws;
mod leave;
mod load;
mod program;
mod put;
mod puts;
mod read;
mod stop;
mod stopped;
mod targets;
mod top;
mod tree;

pub use end::End;
pub use program::start;
pub use put::Put;
pub use stop::Stop;
pub use top::run;
pub use tree::Tree;

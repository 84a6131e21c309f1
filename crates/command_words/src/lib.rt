//! The words of the command line, and the configuration that they give.
//!
//! Words flow in, without the program's name, and a configuration of one of the six commands flows out, or none. It is
//! measured by `specs/Words.antt`; the commands are the rows of `specs/Options.antt`. Words are first put into their
//! plain form and tested; `clap` then reads the value of each option.
#![tactic(auto)]

mod cause;
mod causes;
mod command;
mod configuration;
mod explain;
mod form;
mod help;
mod items;
pub mod laws;
mod mutators;
mod notices;
mod number;
mod option;
mod pairs;
mod parser;
mod plain;
mod targets;
mod words;

pub use cause::Cause;
pub use causes::why;
pub use command::{COMMANDS, CommandName, options, usage_line};
pub use configuration::{Build, Configuration, Edit, Format, Graph, Replay, Synth};
pub use explain::explanation;
pub use form::Form;
pub use help::{HELP, HELP_PARTS, VERSION};
pub use notices::{Notice, notice_of, question_of};
pub use option::OptionName;
pub use words::configure;

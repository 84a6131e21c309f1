//! The reader of text for Ninja.
//!
//! A text flows in, as bytes. The `NinjaFile` that it stands for flows out, or the number of the first
//! line that is refused. It is measured by `specs/Meaning.antt`, line by line, over `specs/Heads.antt`
//! (the words of a line), `specs/Values.antt` (values) and the joined lines of `ninja_lines`.
#![tactic(auto)]

mod book;
mod command;
mod form;
mod head;
pub mod laws;
mod reader;
mod value;

pub use reader::{NinjaError, read};

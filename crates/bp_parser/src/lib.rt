//! The parser: reads the tokens of a file as its tree.
//!
//! It takes a text and its tokens, comments among them; it gives the tree, or the first fault.
//! It is measured by `specs/Meaning.antt`: the tokens that are no comments spell the tree by the
//! grammar, and where they spell none, the earliest of three kinds of fault is reported.
#![tactic(auto)]

mod atom;
mod def;
mod expr;
mod file;
mod flaw;
mod known_names;
pub mod laws;
mod stop;
mod tree;
mod words;

pub use bp_faults::Refusal as ParseError;
pub use file::parse;
pub use tree::{Def, EntryExpr, Expr, FileTree, MapExpr};

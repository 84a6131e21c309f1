//! Names: a set of names, and a table that keeps the first number of each name.
//!
//! A name is a slice of a text that somebody else keeps, so none is copied. Both are ordered by the
//! bytes of their names: there is no hash, so no tree can choose names that collide. Contracts see the
//! set and the table as plain lists; they are measured by `specs/Meaning.antt`.
#![tactic(auto)]

pub mod laws;
mod named;
mod set;
mod table;

pub use named::Named;
pub use set::NameSet;
pub use table::NameTable;

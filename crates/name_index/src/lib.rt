//! An index of many names: the number of each.
//!
//! A name is a slice of a text that somebody else keeps, so none is copied. A name is found by its key, a number that
//! is made of its bytes: the last bits of the key are its slot. Of the names with one slot the first is its owner, and
//! the others are ordered by their bytes: no tree can choose names that make a look-up slow. Contracts see an index as
//! a plain list of names with numbers, and it is measured by `specs/Meaning.antt` of `bp_names`.
#![tactic(auto)]

mod index;
mod key;
mod slots;

pub use index::NameIndex;

//! The tests of the command line's words and of synthetic trees. The crate has no code of its own.
#![tactic(auto)]

#[cfg(test)]
mod synthetic;
#[cfg(test)]
mod words;

//! The tests of the other commands: words that are accepted or aren't, one file that is formatted or edited, orders
//! that are replayed, and synthetic trees. The crate has no code of its own.
#![tactic(auto)]

#[cfg(test)]
mod formatter;
#[cfg(test)]
mod orders;
#[cfg(test)]
mod synthetic;
#[cfg(test)]
mod words;

//! The tests of the ground: values, names, files and streams. The crate has no code of its own.
#![tactic(auto)]

#[cfg(test)]
mod faults;
#[cfg(test)]
mod listings;
#[cfg(test)]
mod names;
#[cfg(test)]
mod patterns;
#[cfg(test)]
mod ports;
#[cfg(test)]
mod rows;

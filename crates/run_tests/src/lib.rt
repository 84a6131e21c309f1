//! The tests of whole runs: trees that are built, also over the files of the system, trees with faults, graphs, and
//! passes on several workers. The crate has no code of its own.
#![tactic(auto)]

#[cfg(test)]
mod built;
#[cfg(test)]
mod examples;
#[cfg(test)]
mod faults;
#[cfg(test)]
mod graphs;
#[cfg(test)]
mod real_files;
#[cfg(test)]
mod workers;

//! The tests of runs at the edge: trees at a limit or beyond it, texts that end too early, and stores and streams that
//! fail. Beside them, patterns whose lists or directories are at a limit. The crate has no code of its own.
#![tactic(auto)]

#[cfg(test)]
mod limits;
#[cfg(test)]
mod outside;
#[cfg(test)]
mod sources;

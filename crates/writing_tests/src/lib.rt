//! The tests of build statements and of the text for Ninja. The crate has no code of its own.
#![tactic(auto)]

#[cfg(test)]
mod actions;
#[cfg(test)]
mod ninja;
#[cfg(test)]
mod nodes;
#[cfg(test)]
mod plain_text;
#[cfg(test)]
mod rows;

//! The tests of what reads Android.bp files, from their bytes to typed modules. The crate has no code of its own.
#![tactic(auto)]

#[cfg(test)]
mod layout;
#[cfg(test)]
mod lexer;
#[cfg(test)]
mod loading;
#[cfg(test)]
mod parser;
#[cfg(test)]
mod patterns;
#[cfg(test)]
mod props;
#[cfg(test)]
mod tables;
#[cfg(test)]
mod values;

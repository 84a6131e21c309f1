//! What is generated of modules is well formed, and is read back.
#![tactic(auto)]

pub mod laws;

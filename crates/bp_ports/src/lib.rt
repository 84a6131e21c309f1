//! The outside, as three traits whose contracts say what a call does to files and streams: `Store`
//! for files, `Sink` for a stream of bytes, `Gate` for what stands before each visit.
//!
//! Paths and bytes flow out to them, and the bytes of files flow in. The layers above are proved
//! over any of them. It is measured by `specs/Files.antt`, what a call does where the object tells
//! its content, and by `specs/Causes.antt`, that a failure is answered only where its count rose.
//! The types in memory tell their content and fail where they are told to; the real ones tell
//! nothing.
#![tactic(auto)]

mod calls;
mod failed;
mod free_sink;
mod free_store;
mod fs_store;
mod gate;
mod mem_sink;
mod mem_store;
mod pair_gate;
mod real_list;
mod replace;
mod sink;
mod std_sink;
mod store;
mod writes;
mod writing;

pub use dir_entries::DirEntry;
pub use failed::Failed;
pub use free_sink::FreeSink;
pub use free_store::FreeStore;
pub use fs_store::FsStore;
pub use gate::{Gate, OpenGate};
pub use mem_sink::MemSink;
pub use mem_store::MemStore;
pub use pair_gate::PairGate;
pub use sink::Sink;
pub use std_sink::StdSink;
pub use store::{ListError, ReadError, Store};

#[cfg(test)]
mod tests;

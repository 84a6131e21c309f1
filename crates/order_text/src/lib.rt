//! The text of a journal, and the lines of an order file.
//!
//! A journal of visits flows in and its text flows out; the bytes of an order file flow in and its lines flow out, each
//! with the visit that it names. The crate is measured by `journal_text` in `specs/Texts.antt` and `AreLines` in
//! `specs/Lines.antt`.
#![tactic(auto)]

mod cut;
mod entry;
mod journal;
pub mod laws;
mod lines;

pub use journal::journal_text;
pub use lines::order_lines;

//! The lines and words of text for Ninja.
//!
//! A text flows in, as bytes. Its joined lines flow out, with their numbers, and the words of a
//! line. It is measured by `specs/Meaning.antt`, what a joined line is, and `specs/Cuts.antt`, where a
//! text is cut.
#![tactic(auto)]

mod cut;
mod joined_lines;
mod line;
mod spaces;

pub use cut::{parts_at, words};
pub use joined_lines::{dangles, joined};
pub use line::{Line, LineText};
pub use spaces::drop_spaces;

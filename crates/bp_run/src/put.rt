use bp_faults::{Seq, Text};

/// A text, and the place where it goes.
#[derive(Debug, Drop)]
pub enum Put {
    /// It becomes what the file of the path holds.
    Write(Text, Seq<u8>),
    /// It goes behind what is on standard output.
    Print(Seq<u8>),
}

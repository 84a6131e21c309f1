ghost use Rattle.std.specs.Prelude.{◌≡◌, ◌≤◌, ℕ, List, Option, IfOk, IfSome, length};
ghost use Rattle.bp_ports.specs.Causes.{HasCauseAt};
ghost use Rattle.graph_picture.specs.Input.{InputMeans};

use crate::end::End;
use std::alloc::Global;
use std::io::{ErrorKind, Read, Take};

/// Why an input isn't read to its end.
#[derive(Clone, Copy, Debug, PartialEq, Eq)]
pub enum Unread {
    TooLarge,
    Failed,
    OutOfMemory,
}

/// Gives bytes up to its end.
pub trait Input {
    ghost use Rattle.graph_picture.specs.Input.{GivesAll};

    /// The bytes that are left, where the input tells them.
    ghost remaining: { Self → Option (List ℕ) };

    /// How often a read has failed. It never falls.
    ghost faults: { Self → ℕ };

    /// All bytes that are left, at most `limit` of them.
    fn read_all(&mut self, alloc: Global, limit: u32) -> Result<Vec<u8>, Unread>
        ensures gives { IfSome (remaining self.old) (λ bytes. GivesAll limit bytes result) }
        ensures bound { IfOk result (λ all. length all.items ≤ limit) }
        ensures cause { HasCauseAt Unread.Failed (faults self.old) (faults self.new) result };
}

/// A reader, with a count of its reads that failed.
#[derive(Drop)]
pub struct Counted<R> {
    reader: Take<R>,
    faults: u64,
}

impl<R: Read + Drop> Counted<R> {
    ghost use Rattle.graph_picture.specs.Input.{failed_reads, reader_of};

    pub fn new(reader: R) -> Counted<R>
        ensures reader { reader_of result ≡ reader }
        ensures faults { failed_reads result ≡ 0 }
    {
        Counted {
            reader: reader.take(0),
            faults: 0,
        }
    }
}

impl<R: Read + Drop> Input for Counted<R> {
    ghost use Rattle.graph_picture.specs.Input.{failed_reads, reader_of};

    ghost remaining = { λ s. R.remaining (reader_of s) };

    ghost faults = { λ s. failed_reads s };

    fn read_all(&mut self, alloc: Global, limit: u32) -> Result<Vec<u8>, Unread> {
        let mut bytes = Vec::new(alloc);
        self.reader.set_limit(u64::from(limit) + 1);
        match self.reader.read_to_end(&mut bytes) {
            Ok(_) if bytes.len() <= limit as usize => Ok(bytes),
            Ok(_) => Err(Unread::TooLarge),
            Err(error) => match error.kind() {
                ErrorKind::OutOfMemory => Err(Unread::OutOfMemory),
                _ => {
                    self.faults = self.faults.saturating_add(1);
                    Err(Unread::Failed)
                }
            },
        }
    }
}

/// The bytes of the input are at most so many.
const MOST_BYTES: u32 = 536_870_912;

/// All bytes of the input.
pub fn read_input<I: Input>(alloc: Global, input: &mut I) -> Result<Vec<u8>, End>
    ensures { InputMeans (I.remaining input.old) (I.faults input.old) (I.faults input.new) result }
{
    match input.read_all(alloc, MOST_BYTES) {
        Ok(bytes) => Ok(bytes),
        Err(Unread::OutOfMemory) => Err(End::OutOfMemory),
        Err(Unread::TooLarge | Unread::Failed) => Err(End::CannotRead),
    }
}

ghost use Rattle.std.specs.Prelude.{◌≡◌, ℕ, List, Option, IfOk, IfSome, Some};
ghost use Rattle.std.specs.Io.BufRead.{take_through, drop_through};
ghost use Rattle.bp_ports.specs.Causes.{HasCauseAt};

use std::alloc::Global;
use std::io::{BufRead, ErrorKind};

/// Why the next line isn't read.
#[derive(Clone, Copy, Debug, PartialEq, Eq)]
pub enum Unread {
    Failed,
    OutOfMemory,
}

/// Gives lines up to its end.
pub trait Input {
    /// The bytes that are left, where the input tells them.
    ghost remaining: { Self → Option (List ℕ) };

    /// How often a read has failed. It never falls.
    ghost faults: { Self → ℕ };

    /// The next line with its end. At the end of the input it is empty.
    fn next_line(&mut self, alloc: Global) -> Result<Vec<u8>, Unread>
        ensures line { IfOk result (λ line. IfSome (remaining self.old) (λ text. line.items ≡ take_through 10 text)) }
        ensures rest { IfOk result
            (λ line. IfSome (remaining self.old) (λ text. remaining self.new ≡ Some (drop_through 10 text))) }
        ensures cause { HasCauseAt Unread.Failed (faults self.old) (faults self.new) result };
}

/// A reader, with a count of its reads that failed.
#[derive(Drop)]
pub struct Counted<B> {
    reader: B,
    faults: u64,
}

impl<B: BufRead + Drop> Counted<B> {
    ghost use Rattle.std.specs.Prelude.{◌≡◌};
    ghost use Rattle.fault_view.specs.Input.{failed_reads, reader_of};

    pub fn new(reader: B) -> Counted<B>
        ensures reader { reader_of result ≡ reader }
        ensures faults { failed_reads result ≡ 0 }
    {
        Counted { reader, faults: 0 }
    }
}

impl<B: BufRead + Drop> Input for Counted<B> {
    ghost use Rattle.fault_view.specs.Input.{failed_reads, reader_of};

    ghost remaining = { λ s. B.remaining (reader_of s) };

    ghost faults = { λ s. failed_reads s };

    fn next_line(&mut self, alloc: Global) -> Result<Vec<u8>, Unread> {
        let mut line = Vec::new(alloc);
        match self.reader.read_until(b'\n', &mut line) {
            Ok(_) => Ok(line),
            Err(error) => match error.kind() {
                ErrorKind::OutOfMemory => Err(Unread::OutOfMemory),
                _ => {
                    self.faults = self.faults.saturating_add(1);
                    Err(Unread::Failed)
                }
            },
        }
    }
}

ghost use Rattle.std.specs.Prelude.{◌≡◌, ℕ, ◌+◌, ◌≤◌, ◌<◌, ◌++◌, [], length, Some, IfOk, IsOk, IfSome, IsSome, IsNone};
ghost use Rattle.std.specs.Prelude.{IsTrue, ◌↔◌};
ghost use Rattle.std.specs.Option.{option_map};
ghost use Rattle.bp_ports.specs.MemSink.{puts_of};

use crate::{Failed, MemSink, Sink};
use bp_faults::OutOfMemory;
use std::alloc::Global;

/// Bytes in memory, without failures: a put that doesn't fit ends the telling.
#[derive(Drop)]
pub struct FreeSink {
    sink: MemSink,
    told: bool,
    ghost no_failures: { (puts_of sink).failing.items ≡ [] },
}

impl FreeSink {
    ghost use Rattle.bp_ports.specs.FreeSink.{told_bytes, BeginsWith};

    /// A sink for so many bytes, whose room is taken now.
    pub fn new(alloc: Global, room: u32) -> Result<FreeSink, OutOfMemory>
        ensures { IfOk result (BeginsWith room) }
    {
        Ok(FreeSink {
            sink: MemSink::new(alloc, room, Vec::new(alloc))?,
            told: true,
        })
    }

    /// Whether the bytes are still told.
    pub fn tells(&self) -> bool
        ensures { IsTrue result ↔ IsSome (told_bytes self.now) }
    {
        self.told
    }

    /// The bytes so far. Nothing is said of them once they are told no more.
    pub fn bytes(&self) -> &[u8]
        ensures { IfSome (told_bytes self.now) (λ bytes. result.now ≡ bytes) }
    {
        self.sink.bytes()
    }
}

impl Sink for FreeSink {
    ghost use Rattle.bp_ports.specs.Causes.{HasCause};
    ghost use Rattle.bp_ports.specs.Files.{WhereTold, PutLeaves};
    ghost use Rattle.bp_ports.specs.FreeSink.{told_bytes, room_for_bytes};

    ghost bytes = { λ s. told_bytes s };

    ghost faults = { λ s. 0 };

    fn put(&mut self, more: &[u8]) -> Result<(), Failed>
        ensures contents { WhereTold (PutLeaves more.now result) (told_bytes self.old) (told_bytes self.new) }
        ensures cause { HasCause 0 0 result }

        // No put fails. The telling ends exactly where the bytes don't fit.
        ensures ok { IsOk result }
        ensures kept { length more.now ≤ room_for_bytes self.old
            → told_bytes self.new ≡ option_map (λ bytes. bytes ++ more.now) (told_bytes self.old) }
        ensures ended { room_for_bytes self.old < length more.now → IsNone (told_bytes self.new) }
        ensures spent { length more.now ≤ room_for_bytes self.old
            → room_for_bytes self.new + length more.now ≡ room_for_bytes self.old }
    {
        if self.sink.put(more).is_err() {
            self.told = false;
        }
        Ok(())
    }
}

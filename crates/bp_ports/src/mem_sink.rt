ghost use Rattle.std.specs.Prelude.{◌≡◌, ℕ, ◌+◌, ◌≤◌, ◌<◌, List, ◌++◌, Some, IfOk, OnErr, IsErr, length, vec_len};
ghost use Rattle.std.specs.Prelude.{vec_capacity, ◌↔◌, ◌⊎◌};

use crate::calls::Calls;
use crate::{Failed, Sink};
use bp_faults::OutOfMemory;
use std::alloc::Global;

/// Bytes in memory, whose puts fail where they are told to.
#[derive(Drop)]
pub struct MemSink {
    bytes: Vec<u8>,
    room: usize,
    puts: Calls,
    faults: u64,
    ghost fits: { vec_len bytes + room ≤ vec_capacity bytes },
}

impl MemSink {
    ghost use Rattle.bp_ports.specs.MemSink.{bytes_so_far, room_left, puts_of, failed_puts, BeginsWith};

    /// A sink for so many bytes, whose room is taken now. The puts that fail are counted from 1.
    pub fn new(alloc: Global, room: u32, failing: Vec<u32>) -> Result<MemSink, OutOfMemory>
        ensures { IfOk result (BeginsWith room failing) }
    {
        Ok(MemSink {
            bytes: Vec::with_capacity(alloc, room as usize)?,
            room: room as usize,
            puts: Calls::new(failing),
            faults: 0,
        })
    }

    /// The bytes so far.
    pub fn bytes(&self) -> &[u8]
        ensures { result.now ≡ bytes_so_far self.now }
    {
        self.bytes.as_slice()
    }

    // Appends bytes for which there is room.
    fn append(&mut self, more: &[u8])
        requires room { length more.now ≤ room_left self.old }
        ensures bytes { bytes_so_far self.new ≡ bytes_so_far self.old ++ more.now }
        ensures room { room_left self.new + length more.now ≡ room_left self.old }
        ensures puts { puts_of self.new ≡ puts_of self.old }
        ensures faults { failed_puts self.new ≡ failed_puts self.old }
    {
        self.bytes.extend_from_slice(more).unwrap();
        self.room -= more.len();
    }
}

impl Sink for MemSink {
    ghost use Rattle.bp_ports.specs.Calls.{FailsNext, one_later};
    ghost use Rattle.bp_ports.specs.Causes.{HasCause, count_after};
    ghost use Rattle.bp_ports.specs.Files.{PutLeaves};
    ghost use Rattle.bp_ports.specs.MemSink.{bytes_so_far, room_left, puts_of, failed_puts, fitting_half};

    ghost bytes = { λ s. Some (bytes_so_far s) };

    ghost faults = { λ s. failed_puts s };

    fn put(&mut self, more: &[u8]) -> Result<(), Failed>
        ensures contents { PutLeaves more.now result (bytes_so_far self.old) (bytes_so_far self.new) }
        ensures cause { HasCause (failed_puts self.old) (failed_puts self.new) result }

        // The put fails exactly where it is listed or the bytes don't fit, and appends half of them then.
        ensures exactly { IsErr result ↔ (FailsNext (puts_of self.old) ⊎ room_left self.old < length more.now) }
        ensures half { OnErr result
            (bytes_so_far self.new ≡ bytes_so_far self.old ++ fitting_half (room_left self.old) more.now) }
        ensures room { length (bytes_so_far self.new) + room_left self.new
            ≡ length (bytes_so_far self.old) + room_left self.old }
        ensures counted { puts_of self.new ≡ one_later (puts_of self.old) }
        ensures raised { failed_puts self.new ≡ count_after result (failed_puts self.old) }
    {
        let fails = self.puts.fails();
        let room = self.room;
        if !fails && more.len() <= room {
            self.append(more);
            return Ok(());
        }
        self.append(&more[..room.min(more.len() / 2)]);
        self.faults = self.faults.saturating_add(1);
        Err(Failed)
    }
}

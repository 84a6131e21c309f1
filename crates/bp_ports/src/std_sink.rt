ghost use Rattle.std.specs.Prelude.{◌≡◌, None, OnOk};
ghost use Rattle.std.specs.Io.KnownBytes.{Appends};

use crate::writing::write_through;
use crate::{Failed, Sink};
use std::io::Write;
use std::rt::{Stderr, Stdout};

/// A standard stream. It tells nothing of what it holds.
#[derive(Drop)]
pub struct StdSink<W> {
    stream: W,
    faults: u64,
}

impl StdSink<Stdout> {
    ghost use Rattle.bp_ports.specs.StdSink.{failed_puts};

    /// Standard output.
    pub fn out(rt: HostRuntime) -> StdSink<Stdout>
        ensures { failed_puts result ≡ 0 }
    {
        StdSink {
            stream: rt.stdout(),
            faults: 0,
        }
    }
}

impl StdSink<Stderr> {
    ghost use Rattle.bp_ports.specs.StdSink.{failed_puts};

    /// Standard error.
    pub fn err(rt: HostRuntime) -> StdSink<Stderr>
        ensures { failed_puts result ≡ 0 }
    {
        StdSink {
            stream: rt.stderr(),
            faults: 0,
        }
    }
}

impl<W: Write + Drop> Sink for StdSink<W> {
    ghost use Rattle.bp_ports.specs.Causes.{HasCause, count_after};
    ghost use Rattle.bp_ports.specs.StdSink.{stream_of, failed_puts};

    ghost bytes = { λ s. None };

    ghost faults = { λ s. failed_puts s };

    fn put(&mut self, more: &[u8]) -> Result<(), Failed>
        ensures cause { HasCause (failed_puts self.old) (failed_puts self.new) result }

        // What was put is with the writer, and a failure is counted once.
        ensures through { OnOk result
            (Appends (W.contents (stream_of self.old)) (W.contents (stream_of self.new)) more.now) }
        ensures raised { failed_puts self.new ≡ count_after result (failed_puts self.old) }
    {
        match write_through(&mut self.stream, more) {
            Ok(()) => Ok(()),
            Err(_) => {
                self.faults = self.faults.saturating_add(1);
                Err(Failed)
            }
        }
    }
}

ghost use Rattle.std.specs.Prelude.{◌≡◌};
ghost use Rattle.bp_run.specs.World.{stream, Says};
ghost use Rattle.bp_run.specs.End.{status_of, report_of, IsLineReported};

use bp_faults::Text;
use bp_ports::Sink;
use command_words::usage_line;

/// How a call ended, with the line that reports it.
#[derive(Debug, Drop)]
pub enum End {
    Done,
    Fault(Text),
    Usage,
    Read(Text),
    Write(Text),
    OutOfMemory,
}

/// The exit status.
pub fn status(end: &End) -> u8
    ensures { result ≡ status_of end.now }
{
    match end {
        End::Done => 0,
        End::Fault(_) => 1,
        End::Usage => 2,
        End::Read(_) => 3,
        End::Write(_) => 4,
        End::OutOfMemory => 5,
    }
}

// Puts a line on a stream. A stream that fails changes nothing else.
fn say<D: Sink>(line: &str, diag: &mut D)
    ensures { Says (stream D.Sink diag.old) (stream D.Sink diag.new) line.now }
{
    let _ = diag.put(line.as_bytes());
}

/// Puts the line of an end on a stream.
pub fn report<D: Sink>(end: &End, diag: &mut D)
    ensures { IsLineReported (report_of end.now) (stream D.Sink diag.old) (stream D.Sink diag.new) }
{
    match end {
        End::Done => {}
        End::Fault(line) | End::Read(line) | End::Write(line) => say(line.as_str(), diag),
        End::Usage => say(usage_line(), diag),
        End::OutOfMemory => say("bpgen: out of memory\n", diag),
    }
}

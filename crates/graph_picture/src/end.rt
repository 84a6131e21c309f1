ghost use Rattle.std.specs.Prelude.{◌≡◌, IfOk};
ghost use Rattle.std.specs.Option.{option_copied};
ghost use Rattle.graph_picture.specs.End.{status_of, report_of, end_without_words, EndsWithout};
ghost use Rattle.graph_picture.specs.End.{IsFaultLine, IsLineReported};
ghost use Rattle.graph_picture.specs.Streams.{stream};

use crate::PictureError;
use bp_faults::{OutOfMemory, Text};
use bp_ports::Sink;
use std::alloc::Global;
use std::io::ErrorKind;

/// How the program ends.
#[derive(Debug, Drop)]
pub enum End {
    Done,
    /// The input has a fault, with the line that reports it.
    Fault(Text),
    Usage,
    CannotRead,
    CannotWrite,
    OutOfMemory,
}

impl End {
    /// The exit status.
    pub fn status(&self) -> u8
        ensures { result ≡ status_of self.now }
    {
        match self {
            End::Done => 0,
            End::Fault(_) => 1,
            End::Usage => 2,
            End::CannotRead => 3,
            End::CannotWrite => 4,
            End::OutOfMemory => 5,
        }
    }

    /// The line that reports the end, if it has one.
    fn line(&self) -> Option<&str>
        ensures { option_copied result ≡ report_of self.now }
    {
        match self {
            End::Done => None,
            End::Fault(line) => Some(line.as_str()),
            End::Usage => Some("usage: graph_picture [MODULE [DEPTH]]\n"),
            End::CannotRead => Some("graph_picture: cannot read standard input\n"),
            End::CannotWrite => Some("graph_picture: cannot write standard output\n"),
            End::OutOfMemory => Some("graph_picture: out of memory\n"),
        }
    }

    /// Puts that line on a stream, and gives the status. A stream that fails changes nothing else.
    pub fn report<D: Sink>(&self, diag: &mut D) -> u8
        ensures status { result ≡ status_of self.now }
        ensures said { IsLineReported (report_of self.now) (stream D.Sink diag.old) (stream D.Sink diag.new) }
    {
        if let Some(line) = self.line() {
            let _ = diag.put(line.as_bytes());
        }
        self.status()
    }
}

/// The line of a fault.
fn fault_line(alloc: Global, error: &PictureError, owner: &str) -> Result<Text, OutOfMemory>
    ensures { IfOk result (λ line. IsFaultLine error.now owner.now line) }
{
    match error {
        PictureError::BadLine(line) => {
            let text = format!(in alloc; "graph_picture: bad line {line}\n")?;
            Ok(Text::new(text))
        }
        PictureError::NoModule => {
            let text = format!(in alloc; "graph_picture: no module {owner}\n")?;
            Ok(Text::new(text))
        }
        PictureError::OutOfMemory => Err(OutOfMemory),
    }
}

/// The end where there is no picture.
pub fn end_of(alloc: Global, error: &PictureError, owner: &str) -> End
    ensures { EndsWithout error.now owner.now result }
{
    match fault_line(alloc, error, owner) {
        Ok(line) => End::Fault(line),
        Err(OutOfMemory) => End::OutOfMemory,
    }
}

/// How a call ends whose words can't be read. A word that isn't UTF-8 is a wrong word.
pub fn end_without_words(kind: ErrorKind) -> End
    ensures { result ≡ end_without_words kind }
{
    match kind {
        ErrorKind::OutOfMemory => End::OutOfMemory,
        _ => End::Usage,
    }
}

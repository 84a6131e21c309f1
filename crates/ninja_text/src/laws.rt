//! What ties writing to reading.
ghost use Rattle.std.specs.Prelude.{◌≡◌, ◌≤◌, IfOk, IsErr, IsErrOf};
ghost use Rattle.bp_faults.specs.declared.limits.TheConstants.{MOST_WORKERS};
ghost use Rattle.ninja_file.specs.Meaning.{IsWellFormed};
ghost use Rattle.ninja_text.specs.Meaning.{ReadBackMeans, WrittenIsReadBack};

use ninja_file::NinjaFile;
use ninja_read::{NinjaError, read};
use ninja_write::laws::lines_hold_no_line_feed;
use ninja_write::{WriteError, write, write_in};
use std::alloc::Global;
use std::thread::Threads;

/// Whatever `read` answers of what `write` answered for a well-formed file is that file, but for memory.
pub fn what_was_written_is_read_back()
    ensures { WrittenIsReadBack }
{
    lines_hold_no_line_feed();
}

/// Writes a well-formed file and reads the text: the two calls, one after the other.
pub fn written_and_read(
    alloc: Global,
    f: &NinjaFile,
) -> Result<Result<NinjaFile, NinjaError>, WriteError>
    requires { IsWellFormed f.now }
    ensures { IfOk result (ReadBackMeans f.now) }
{
    what_was_written_is_read_back();
    let text = write(alloc, f)?;
    Ok(read(alloc, text.as_slice()))
}

/// Writes a file without and with workers. Two texts are one text, and no text is beside an answer that it is too
/// large.
pub fn written_alike<R: Threads + Sync>(
    rt: &R,
    alloc: Global,
    f: &NinjaFile,
    workers: u32,
) -> (Result<Vec<u8>, WriteError>, Result<Vec<u8>, WriteError>)
    requires workers { (1 ≤ workers) × (workers ≤ MOST_WORKERS) }
    ensures text { IfOk result.0 (λ text. IfOk result.1 (λ other. other.items ≡ text.items)) }
    ensures alone { IsErrOf result.0 WriteError.TooLarge → IsErr result.1 }
    ensures several { IsErrOf result.1 WriteError.TooLarge → IsErr result.0 }
{
    (write(alloc, f), write_in(rt, alloc, f, workers))
}

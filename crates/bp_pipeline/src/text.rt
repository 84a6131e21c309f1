ghost use Rattle.std.specs.Prelude.{◌≡◌, ◌<◌, ◌≤◌, ◌^◌, IfOk, IsUtf8, length};
ghost use Rattle.bp_faults.specs.Answers.{Tells};
ghost use Rattle.bp_faults.specs.declared.limits.TheConstants.{MOST_WORKERS};
ghost use Rattle.bp_pipeline.specs.Generated.{text_within_limit};

use bp_faults::{Fault, FaultKind, Place, Refusal};
use ninja_file::NinjaFile;
use ninja_write::{WriteError, write_in};
use std::alloc::Global;
use std::thread::Threads;

/// The text of a file for Ninja, which some workers print, if it isn't too large (34).
pub fn text_of<R: Threads + Sync>(
    rt: &R,
    alloc: Global,
    file: &NinjaFile,
    workers: u32,
) -> Result<Vec<u8>, Refusal>
    requires workers { (1 ≤ workers) × (workers ≤ MOST_WORKERS) }
    ensures text { Tells (λ text. text.items) (λ outcome. text_within_limit file.now ≡ outcome) result }
    ensures utf8 { IfOk result (λ text. IsUtf8 text.items) }
    ensures few { IfOk result (λ _. length file.now.statements < 2 ^ 32) }
{
    match write_in(rt, alloc, file, workers) {
        Ok(text) => Ok(text),
        Err(WriteError::TooLarge) => {
            let fault = Fault::at(alloc, FaultKind::OutputTooLarge, Place::start(0));
            Err(Refusal::Bad(fault))
        }
        Err(WriteError::OutOfMemory) => Err(Refusal::OutOfMemory),
    }
}

ghost use Rattle.std.specs.Prelude.{◌≡◌, ◌∷◌, [], IfOk};
ghost use Rattle.bp_run.specs.Steps.{WritesOrRunsOut};
ghost use Rattle.bp_run.specs.declared.put.Put.TheVariants.{Write, Print};

use crate::{End, Put};
use bp_faults::{OutOfMemory, Seq, Text};
use std::alloc::Global;

/// The text goes to the output.
pub fn puts_to_output(alloc: Global, text: Vec<u8>) -> Result<Vec<Put>, OutOfMemory>
    ensures { IfOk result (λ puts. puts.items ≡ Print text.items ∷ []) }
{
    let mut puts = Vec::new(alloc);
    puts.push(Put::Print(Seq::new(text)))?;
    Ok(puts)
}

/// The text goes to the file of a path.
pub fn puts_to_file(alloc: Global, path: &Text, text: Seq<u8>) -> Result<Vec<Put>, OutOfMemory>
    ensures { IfOk result (λ puts. puts.items ≡ Write path.now text ∷ []) }
{
    let mut puts = Vec::new(alloc);
    puts.push(Put::Write(path.copy(alloc)?, text))?;
    Ok(puts)
}

/// The text goes to the file of a path, or memory runs out.
pub fn puts_to_file_or_end(alloc: Global, path: &Text, text: Seq<u8>) -> Result<Vec<Put>, End>
    ensures { WritesOrRunsOut path.now text result }
{
    match puts_to_file(alloc, path, text) {
        Ok(puts) => Ok(puts),
        Err(_) => Err(End::OutOfMemory),
    }
}

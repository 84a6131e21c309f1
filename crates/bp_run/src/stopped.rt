//! How a command ends that comes to no text.

ghost use Rattle.std.specs.Prelude.{◌≡◌, ◌∷◌, [], IfOk};
ghost use Rattle.bp_faults.specs.Line.{line_of};
ghost use Rattle.bp_run.specs.Lines.{read_line};
ghost use Rattle.bp_run.specs.Steps.{Stopped, stop_of};

use crate::{End, Stop};
use bp_faults::{Fault, OutOfMemory, Path, Refusal, Text, fault_line};
use std::alloc::Global;

// The line for a path that can't be read.
fn cannot_read(alloc: Global, path: &Text) -> Result<Text, OutOfMemory>
    ensures { IfOk result (λ line. line ≡ read_line path.now) }
{
    let path = path.as_str();
    Ok(Text::new(format!(in alloc; "bpgen: cannot read {path}\n")?))
}

/// The texts of a name and of the paths behind it.
pub fn names_of(alloc: Global, first: &str, paths: &[Path]) -> Result<Vec<Text>, OutOfMemory>
    ensures { IfOk result (λ texts. texts.items ≡ first.now ∷ paths.now) }
{
    let mut texts = Vec::new(alloc);
    texts.push(Text::from_str(alloc, first)?)?;
    for path in paths {
        texts.push(path.as_text().copy(alloc)?)?;
    }
    Ok(texts)
}

// The line of a fault.
fn fault_text(alloc: Global, names: &[Text], fault: &Fault) -> Result<Text, OutOfMemory>
    ensures { IfOk result (λ line. line ≡ line_of fault.now names.now) }
{
    Ok(Text::new(fault_line(alloc, fault, names)?))
}

/// The line that reports why nothing is made, by the names of files by their numbers.
pub fn end_by_names(alloc: Global, names: &[Text], stop: &Stop) -> End
    ensures { Stopped names.now stop.now result }
{
    let line = match stop {
        Stop::Fault(fault) => fault_text(alloc, names, fault).map(End::Fault),
        Stop::Read(path) => cannot_read(alloc, path).map(End::Read),
        Stop::OutOfMemory => Err(OutOfMemory),
    };
    line.unwrap_or(End::OutOfMemory)
}

/// The same where a name stands before paths.
pub fn end_by_stop(alloc: Global, first: &str, paths: &[Path], stop: &Stop) -> End
    ensures { Stopped (first.now ∷ paths.now) stop.now result }
{
    match names_of(alloc, first, paths) {
        Ok(names) => end_by_names(alloc, &names, stop),
        Err(_) => End::OutOfMemory,
    }
}

/// The same of a layer's refusal.
pub fn end_by_refusal(alloc: Global, first: &str, paths: &[Path], refusal: Refusal) -> End
    ensures { Stopped (first.now ∷ paths.now) (stop_of refusal) result }
{
    end_by_stop(alloc, first, paths, &Stop::from(refusal))
}

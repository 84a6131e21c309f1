ghost use Rattle.std.specs.Prelude.{◌≡◌, IfSome, IfOk, true};
ghost use Rattle.bp_faults.specs.Answers.{Refuses};
ghost use Rattle.bp_faults.specs.Faults.{fault_on};
ghost use Rattle.bp_faults.specs.declared.kind.FaultKind.TheVariants.{TooMany};
ghost use Rattle.path_patterns.specs.Matches.{IsWalked};
ghost use Rattle.source_patterns.specs.Answers.{ExpandGives, ExpandCause};
ghost use Rattle.source_patterns.specs.Patterns.{is_pattern, tail_of, FoundMeans};

use crate::ExpandError;
use crate::patterns::tail_of;
use bp_faults::{Fault, FaultKind, OutOfMemory, Path, Place, Text};
use bp_props::Source;
use path_patterns::{Directories, WalkError, find_matches};
use std::alloc::Global;

/// The fault that there are too many of something.
pub fn too_many(alloc: Global, at: Place, what: &str) -> Result<Fault, OutOfMemory>
    ensures { IfOk result (λ fault. fault ≡ fault_on TooMany at what.now) }
{
    let subject = Text::from_str(alloc, what)?;
    Ok(Fault::on(alloc, FaultKind::TooMany, at, subject))
}

/// The matches of a pattern, by their bytes.
pub fn matches_of<D: Directories>(
    alloc: Global,
    dirs: &mut D,
    dir: &Path,
    source: &Source,
) -> Result<Vec<Text>, ExpandError>
    requires pattern { is_pattern dir.now source.now ≡ true }
    requires ready { D.IsReady dirs.old }
    ensures gives { IfSome (D.held dirs.old) (λ held. ExpandGives (λ found. found.items)
        (FoundMeans held dir.now source.now) (IsWalked dir.now (tail_of dir.now source.now)) result) }
    ensures held { D.held dirs.new ≡ D.held dirs.old }
    ensures cause { ExpandCause (D.faults dirs.old) (D.faults dirs.new) result }
    ensures kept { D.kept dirs.new ≡ D.kept dirs.old }
    ensures ready { D.IsReady dirs.new }
{
    match find_matches(alloc, dirs, dir, tail_of(dir, source)) {
        Ok(found) => Ok(found),
        Err(WalkError::TooMany) => Err(ExpandError::Bad(too_many(
            alloc,
            source.item.at,
            "entries",
        )?)),
        Err(WalkError::Failed(walked)) => Err(ExpandError::Failed(walked)),
        Err(WalkError::OutOfMemory) => Err(ExpandError::OutOfMemory),
    }
}

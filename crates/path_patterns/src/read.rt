ghost use Rattle.std.specs.Prelude.{◌≡◌, IfSome};
ghost use Rattle.path_patterns.specs.Levels.{ReadMeans};
ghost use Rattle.path_patterns.specs.Causes.{WalkCause};

use crate::directories::{DirError, Directories};
use crate::matches::WalkError;
use bp_faults::Text;
use dir_entries::laws::entries_are_one_list;
use std::alloc::Global;

/// Reads a directory that is walked.
pub fn read<D: Directories>(alloc: Global, dirs: &mut D, dir: &Text) -> Result<(), WalkError>
    requires ready { D.IsReady dirs.old }
    ensures gives { IfSome (D.held dirs.old) (λ held. ReadMeans held dir.now (D.last dirs.new) result) }
    ensures held { D.held dirs.new ≡ D.held dirs.old }
    ensures cause { WalkCause (D.faults dirs.old) (D.faults dirs.new) result }
    ensures kept { D.kept dirs.new ≡ D.kept dirs.old }
    ensures ready { D.IsReady dirs.new }
{
    entries_are_one_list();
    match dirs.read(dir) {
        Ok(()) => Ok(()),
        Err(DirError::TooMany) => Err(WalkError::TooMany),
        Err(DirError::Failed) => Err(WalkError::Failed(dir.copy(alloc)?)),
        Err(DirError::OutOfMemory) => Err(WalkError::OutOfMemory),
    }
}

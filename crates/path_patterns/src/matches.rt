ghost use Rattle.std.specs.Prelude.{◌≡◌, true, IfSome};
ghost use Rattle.path_patterns.specs.Causes.{WalkCause};
ghost use Rattle.path_patterns.specs.Globs.{has_star};
ghost use Rattle.path_patterns.specs.Matches.{MatchesGive};

use crate::directories::Directories;
use crate::first::first_on_way;
use crate::levels::walk;
use crate::order::in_order;
use crate::parts::parts_of;
use bp_faults::{OutOfMemory, Path, Text};
use std::alloc::Global;
use thiserror::Error;

/// Why a pattern has no matches: a directory that is walked has too many entries or isn't read, or memory ran out.
#[derive(Debug, Drop, Error)]
pub enum WalkError {
    #[error("too many entries")]
    TooMany,
    #[error("cannot read a directory")]
    Failed(Text),
    #[error("out of memory")]
    OutOfMemory,
}

impl From<OutOfMemory> for WalkError {
    ghost use Rattle.std.specs.Prelude.{◌≡◌};
    ghost use Rattle.path_patterns.specs.declared.matches.WalkError.TheVariants.{OutOfMemory as Want};

    ghost from_gives = { λ _ error. error ≡ Want };

    fn from(_: OutOfMemory) -> Self {
        WalkError::OutOfMemory
    }
}

/// The paths that a pattern matches below a directory, by their bytes, each once. A directory is read at most once for
/// one pattern.
pub fn find_matches<D: Directories>(
    alloc: Global,
    dirs: &mut D,
    dir: &Path,
    tail: &str,
) -> Result<Vec<Text>, WalkError>
    requires star { has_star tail.now ≡ true }
    requires ready { D.IsReady dirs.old }
    ensures gives { IfSome (D.held dirs.old) (λ held. MatchesGive held dir.now tail.now result) }
    ensures held { D.held dirs.new ≡ D.held dirs.old }
    ensures cause { WalkCause (D.faults dirs.old) (D.faults dirs.new) result }
    ensures kept { D.kept dirs.new ≡ D.kept dirs.old }
    ensures ready { D.IsReady dirs.new }
{
    let all = parts_of(alloc, tail)?;
    let parts = all.as_slice();
    let first = first_on_way(alloc, dir.as_text(), parts)?;
    match first {
        None => Ok(Vec::new(alloc)),
        Some(first) => {
            let found = walk(alloc, dirs, parts, first)?;
            Ok(in_order(found)?)
        }
    }
}

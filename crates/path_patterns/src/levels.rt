ghost use Rattle.std.specs.Prelude.{◌≡◌, ◌<◌, ◌++◌, ◌∷◌, [], true, ℕ, List, IfSome, IfOk, OnOk, length};
ghost use Rattle.path_patterns.specs.declared.limits.TheConstants.{MOST_ENTRIES};
ghost use Rattle.path_patterns.specs.Causes.{WalkCause};
ghost use Rattle.path_patterns.specs.Levels.{Walks, ReadMeans, LevelMeans, WalkMeans, tallest};
ghost use Rattle.path_patterns.specs.Parts.{has_rest};
ghost use Rattle.path_patterns.specs.Stages.{way_of, ways_of};
ghost use Rattle.path_patterns.specs.Ways.{Way, found_at, ways_at};

use crate::directories::Directories;
use crate::matches::WalkError;
use crate::read::read;
use crate::walk::{OnWay, visit};
use bp_faults::{OutOfMemory, Text};
use std::alloc::Global;

/// One directory on the way: it is read, and its entries are visited.
fn walk_one<D: Directories>(
    alloc: Global,
    dirs: &mut D,
    parts: &[Text],
    dir: &OnWay,
    found: &mut Vec<Text>,
    next: &mut Vec<OnWay>,
) -> Result<(), WalkError>
    requires ready { D.IsReady dirs.old }
    ensures gives { IfSome (D.held dirs.old) (λ held. ReadMeans held dir.now.path (D.last dirs.new) result) }
    ensures found { OnOk result (found.new.items
        ≡ found.old.items ++ found_at (way_of parts.now dir.now) (D.last dirs.new)) }
    ensures ways { OnOk result (ways_of parts.now next.new.items
        ≡ ways_of parts.now next.old.items ++ ways_at (way_of parts.now dir.now) (D.last dirs.new)) }
    ensures held { D.held dirs.new ≡ D.held dirs.old }
    ensures cause { WalkCause (D.faults dirs.old) (D.faults dirs.new) result }
    ensures kept { D.kept dirs.new ≡ D.kept dirs.old }
    ensures ready { D.IsReady dirs.new }
{
    read(alloc, dirs, &dir.path)?;
    visit(alloc, parts, dir, dirs.entries(), found, next)?;
    Ok(())
}

/// The directories of one level, one after another: the matches in them, and the next level, from which less of the
/// pattern is left.
fn walk_level<D: Directories>(
    alloc: Global,
    dirs: &mut D,
    parts: &[Text],
    level: &[OnWay],
    found: &mut Vec<Text>,
) -> Result<Vec<OnWay>, WalkError>
    requires ready { D.IsReady dirs.old }
    ensures gives { IfSome (D.held dirs.old) (λ held. (first : Way)
        → Walks held MOST_ENTRIES first found.old.items (ways_of parts.now level.now)
        → LevelMeans held parts.now first found.new.items result) }
    ensures falls { IfOk result (λ next. 0 < length level.now
        → tallest (ways_of parts.now next.items) < tallest (ways_of parts.now level.now)) }
    ensures held { D.held dirs.new ≡ D.held dirs.old }
    ensures cause { WalkCause (D.faults dirs.old) (D.faults dirs.new) result }
    ensures kept { D.kept dirs.new ≡ D.kept dirs.old }
    ensures ready { D.IsReady dirs.new }
{
    let mut next = Vec::new(alloc);
    for dir in level {
        walk_one(alloc, dirs, parts, dir, found, &mut next)?;
    }
    Ok(next)
}

/// Everything that is found below a first directory, level by level.
pub fn walk<D: Directories>(
    alloc: Global,
    dirs: &mut D,
    parts: &[Text],
    first: OnWay,
) -> Result<Vec<Text>, WalkError>
    requires ready { D.IsReady dirs.old }
    ensures gives { IfSome (D.held dirs.old) (λ held. has_rest (way_of parts.now first).rests ≡ true
        → WalkMeans held (way_of parts.now first) result) }
    ensures held { D.held dirs.new ≡ D.held dirs.old }
    ensures cause { WalkCause (D.faults dirs.old) (D.faults dirs.new) result }
    ensures kept { D.kept dirs.new ≡ D.kept dirs.old }
    ensures ready { D.IsReady dirs.new }
{
    let mut found = Vec::new(alloc);
    let mut level = only(alloc, first)?;
    'levels: while !level.is_empty() {
        level = walk_level(alloc, dirs, parts, level.as_slice(), &mut found)?;
    }
    Ok(found)
}

// A level of one directory.
fn only(alloc: Global, first: OnWay) -> Result<Vec<OnWay>, OutOfMemory>
    ensures { IfOk result (λ level. level.items ≡ first ∷ []) }
{
    let mut level = Vec::new(alloc);
    level.push(first)?;
    Ok(level)
}

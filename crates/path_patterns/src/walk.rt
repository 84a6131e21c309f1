ghost use Rattle.std.specs.Prelude.{◌≡◌, ◌∷◌, [], ◌++◌, ℕ, List, map, IfOk, OnOk, IfSome, if◌then◌else◌};
ghost use Rattle.path_patterns.specs.Ways.{is_hit, is_next, path_in, way_to, found_at, ways_at};
ghost use Rattle.path_patterns.specs.Stages.{way_of, ways_of};

use crate::names::{is_clear, is_component};
use crate::row::{Reached, behind, goes_on, is_done};
use bp_faults::{OutOfMemory, Text};
use dir_entries::{DirEntry, child};
use std::alloc::Global;

/// A directory on the way: its path, whether a match may have all its names, and what is left of the pattern.
#[derive(Debug, Drop)]
pub struct OnWay {
    pub path: Text,
    pub clear: bool,
    pub row: Vec<Reached>,
}

/// One entry of a directory on the way: a file may be a match, and a directory be on the way.
fn enter(
    alloc: Global,
    parts: &[Text],
    dir: &OnWay,
    entry: &DirEntry,
    found: &mut Vec<Text>,
    ways: &mut Vec<OnWay>,
) -> Result<(), OutOfMemory>
    ensures found { OnOk result (found.new.items ≡ found.old.items
        ++ (if is_hit (way_of parts.now dir.now) entry.now
        then path_in (way_of parts.now dir.now) entry.now ∷ [] else [])) }
    ensures ways { OnOk result (ways_of parts.now ways.new.items ≡ ways_of parts.now ways.old.items
        ++ (if is_next (way_of parts.now dir.now) entry.now
        then way_to (way_of parts.now dir.now) entry.now ∷ [] else [])) }
{
    let name = entry.name.as_str();
    if !is_component(name) {
        return Ok(());
    }
    let clear = dir.clear && is_clear(name);
    let row = behind(alloc, parts, dir.row.as_slice(), name)?;
    if entry.dir {
        if goes_on(parts, row.as_slice()) {
            let path = child(alloc, dir.path.as_str(), name)?;
            ways.push(OnWay { path, clear, row })?;
        }
    } else if clear && is_done(parts, row.as_slice()) {
        found.push(child(alloc, dir.path.as_str(), name)?)?;
    }
    Ok(())
}

/// All entries of a directory on the way.
pub fn visit(
    alloc: Global,
    parts: &[Text],
    dir: &OnWay,
    entries: &[DirEntry],
    found: &mut Vec<Text>,
    ways: &mut Vec<OnWay>,
) -> Result<(), OutOfMemory>
    ensures found { OnOk result (found.new.items
        ≡ found.old.items ++ found_at (way_of parts.now dir.now) entries.now) }
    ensures ways { OnOk result (ways_of parts.now ways.new.items
        ≡ ways_of parts.now ways.old.items ++ ways_at (way_of parts.now dir.now) entries.now) }
{
    for entry in entries {
        enter(alloc, parts, dir, entry, found, ways)?;
    }
    Ok(())
}

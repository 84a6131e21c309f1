ghost use Rattle.std.specs.Prelude.{◌≡◌, ◌∷◌, [], OnOk, IfOk};
ghost use Rattle.std.specs.List.{flat_map};
ghost use Rattle.std.specs.Option.{option_map};
ghost use Rattle.info_mutators.specs.Info.{include_part, own_includes, includes_of};
ghost use Rattle.info_mutators.specs.Inside.{values_behind, NotesPaths, NotesAllPaths};
ghost use Rattle.info_mutators.specs.Kept.{if_short};

use crate::dependency::Dependency;
use bp_faults::limits::LONGEST_LINE;
use bp_faults::{OutOfMemory, Path};
use indexmap::IndexSet;
use module_rules::Record;
use std::alloc::Global;

/// Notes a path, where it isn't there yet.
pub fn note<'a>(seen: &mut IndexSet<&'a Path>, path: &'a Path) -> Result<(), OutOfMemory>
    ensures { OnOk result (NotesAllPaths seen.old.keys (path.now ∷ []) seen.new.keys) }
{
    seen.insert_full(path)?;
    Ok(())
}

/// Notes a path, unless there are too many.
fn note_if_short<'a>(seen: &mut IndexSet<&'a Path>, path: &'a Path) -> Result<(), OutOfMemory>
    ensures { OnOk result (NotesPaths seen.old.keys (path.now ∷ []) seen.new.keys) }
{
    if seen.len() <= LONGEST_LINE {
        note(seen, path)?;
    }
    Ok(())
}

/// Notes paths in order, until there are too many.
fn note_all<'a>(seen: &mut IndexSet<&'a Path>, paths: &'a [Path]) -> Result<(), OutOfMemory>
    ensures { OnOk result (NotesPaths seen.old.keys paths.now seen.new.keys) }
{
    for path in paths {
        note_if_short(seen, path)?;
    }
    Ok(())
}

/// Notes what a dependency exports, where it is a library.
fn note_exports<'a>(
    seen: &mut IndexSet<&'a Path>,
    dependency: &Dependency<'a, '_>,
) -> Result<(), OutOfMemory>
    ensures { OnOk result (NotesPaths seen.old.keys (include_part dependency.now) seen.new.keys) }
{
    if dependency.is_linked_against() {
        note_all(seen, dependency.exports())?;
    }
    Ok(())
}

/// Notes what the libraries export.
fn note_exported<'a>(
    seen: &mut IndexSet<&'a Path>,
    dependencies: &[Dependency<'a, '_>],
) -> Result<(), OutOfMemory>
    ensures { OnOk result (NotesPaths seen.old.keys (flat_map include_part dependencies.now) seen.new.keys) }
{
    for dependency in dependencies {
        note_exports(seen, dependency)?;
    }
    Ok(())
}

/// Notes a module's own directories.
fn note_own<'a>(seen: &mut IndexSet<&'a Path>, own: &'a Record<'_>) -> Result<(), OutOfMemory>
    ensures { OnOk result (NotesPaths seen.old.keys (own_includes own.now) seen.new.keys) }
{
    let base = &own.given().base;
    note_all(seen, base.local_include_dirs.items())?;
    note_all(seen, base.export_include_dirs.items())?;
    note_all(seen, base.include_dirs.items())?;
    Ok(())
}

/// The paths, each in memory of its own.
pub fn copies(alloc: Global, paths: &[&Path]) -> Result<Vec<Path>, OutOfMemory>
    ensures { IfOk result (λ list. list.items ≡ values_behind paths.now) }
{
    let mut list = Vec::with_capacity(alloc, paths.len())?;
    for path in paths {
        list.push(path.copy(alloc)?)?;
    }
    Ok(list)
}

/// The directories that a module's sources are compiled with, where they aren't too many.
pub fn includes_of(
    alloc: Global,
    own: &Record<'_>,
    dependencies: &[Dependency],
) -> Result<Option<Vec<Path>>, OutOfMemory>
    ensures { IfOk result
        (λ list. option_map (λ list. list.items) list ≡ if_short (includes_of own.now dependencies.now)) }
{
    let mut seen = IndexSet::new(alloc);
    note_own(&mut seen, own)?;
    note_exported(&mut seen, dependencies)?;
    if seen.len() > LONGEST_LINE {
        return Ok(None);
    }
    Ok(Some(copies(alloc, seen.as_slice())?))
}

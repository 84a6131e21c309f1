ghost use Rattle.std.specs.Prelude.{◌≡◌, IfOk, OnOk};
ghost use Rattle.std.specs.List.{flat_map};
ghost use Rattle.bp_props.specs.declared.props.Props.{Props};
ghost use Rattle.info_mutators.specs.Info.{is_handed_on, export_part, exports_of};
ghost use Rattle.info_mutators.specs.Inside.{NotesAllPaths, AreNames, AreExportNames};

use crate::dependency::Dependency;
use crate::paths::{copies, note};
use bp_faults::{Item, OutOfMemory, Path};
use bp_names::NameSet;
use bp_names::laws::sets_grow_with_lists;
use indexmap::IndexSet;
use module_graph::EdgeKind;
use module_rules::Record;
use std::alloc::Global;

/// The names of a list, to be looked up.
fn names_of<'a>(alloc: Global, items: &'a [Item]) -> Result<NameSet<'a>, OutOfMemory>
    ensures { IfOk result (AreNames items.now) }
{
    sets_grow_with_lists();
    let mut names = NameSet::new(alloc);
    for item in items {
        names.learn(item.text.as_str())?;
    }
    Ok(names)
}

/// The names of the export lists of a module, by kind.
#[derive(Drop)]
pub struct ExportNames<'a> {
    statics: NameSet<'a>,
    shareds: NameSet<'a>,
    headers: NameSet<'a>,
}

fn export_names<'a>(alloc: Global, own: &'a Record<'_>) -> Result<ExportNames<'a>, OutOfMemory>
    ensures { IfOk result (AreExportNames own.now) }
{
    let base = &own.given().base;
    Ok(ExportNames {
        statics: names_of(alloc, base.export_static_lib_headers.items())?,
        shareds: names_of(alloc, base.export_shared_lib_headers.items())?,
        headers: names_of(alloc, base.export_header_lib_headers.items())?,
    })
}

/// Whether a module hands on what a dependency exports.
fn is_handed_on(names: &ExportNames, dependency: &Dependency) -> bool
    ensures { (own : Props) → AreExportNames own names.now
        → result ≡ is_handed_on own dependency.now.kind dependency.now.name }
{
    let name = dependency.name().as_str();
    match dependency.kind() {
        EdgeKind::Whole => true,
        EdgeKind::Static => names.statics.knows(name),
        EdgeKind::Shared => names.shareds.knows(name),
        EdgeKind::Header => names.headers.knows(name),
        _ => false,
    }
}

/// Notes paths in order. What a module exports it includes too, so there are not too many.
fn note_all<'a>(seen: &mut IndexSet<&'a Path>, paths: &'a [Path]) -> Result<(), OutOfMemory>
    ensures { OnOk result (NotesAllPaths seen.old.keys paths.now seen.new.keys) }
{
    for path in paths {
        note(seen, path)?;
    }
    Ok(())
}

/// Notes what a dependency exports, where the module hands it on.
fn note_handed_on<'a>(
    seen: &mut IndexSet<&'a Path>,
    names: &ExportNames,
    dependency: &Dependency<'a, '_>,
) -> Result<(), OutOfMemory>
    ensures { (own : Props) → AreExportNames own names.now
        → OnOk result (NotesAllPaths seen.old.keys (export_part own dependency.now) seen.new.keys) }
{
    if is_handed_on(names, dependency) {
        note_all(seen, dependency.exports())?;
    }
    Ok(())
}

fn note_all_handed_on<'a>(
    seen: &mut IndexSet<&'a Path>,
    names: &ExportNames,
    dependencies: &[Dependency<'a, '_>],
) -> Result<(), OutOfMemory>
    ensures { (own : Props) → AreExportNames own names.now
        → OnOk result (NotesAllPaths seen.old.keys (flat_map (export_part own) dependencies.now) seen.new.keys) }
{
    for dependency in dependencies {
        note_handed_on(seen, names, dependency)?;
    }
    Ok(())
}

/// The directories that a module exports.
pub fn exports_of(
    alloc: Global,
    own: &Record<'_>,
    dependencies: &[Dependency],
) -> Result<Vec<Path>, OutOfMemory>
    ensures { IfOk result (λ list. list.items ≡ exports_of own.now dependencies.now) }
{
    let names = export_names(alloc, own)?;
    let mut seen = IndexSet::new(alloc);
    note_all(&mut seen, own.given().base.export_include_dirs.items())?;
    note_all_handed_on(&mut seen, &names, dependencies)?;
    Ok(copies(alloc, seen.as_slice())?)
}

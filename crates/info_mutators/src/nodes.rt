ghost use Rattle.std.specs.Prelude.{◌≡◌, OnOk, IfOk, reverse};
ghost use Rattle.std.specs.Option.{option_map};
ghost use Rattle.std.specs.List.{flat_map};
ghost use Rattle.serial_pass.specs.Orders.{numbers};
ghost use Rattle.info_mutators.specs.Info.{line_part, link_line_of, shared_part, needed_part, slibs_of};
ghost use Rattle.info_mutators.specs.Inside.{NotesNumbers};
ghost use Rattle.info_mutators.specs.Kept.{if_short};

use crate::dependency::Dependency;
use crate::notes::Notes;
use bp_faults::{NodeId, OutOfMemory};
use module_graph::EdgeKind;
use std::alloc::Global;

/// Notes nodes in order, until there are too many.
fn note_all(notes: &mut Notes, nodes: &[NodeId]) -> Result<(), OutOfMemory>
    ensures { OnOk result (NotesNumbers notes.old (numbers nodes.now) notes.new) }
{
    for node in nodes {
        notes.note(*node)?;
    }
    Ok(())
}

/// Notes nodes from the last to the first, until there are too many. The tails of link lines are mostly alike, so the
/// tail that stands at the front of the notes already is skipped.
fn note_from_end(notes: &mut Notes, nodes: &[NodeId]) -> Result<(), OutOfMemory>
    ensures { OnOk result (NotesNumbers notes.old (reverse (numbers nodes.now)) notes.new) }
{
    let mut index = nodes.len() - notes.shared_tail(nodes);
    while index > 0 {
        index -= 1;
        notes.note(nodes[index])?;
    }
    Ok(())
}

/// Notes what a dependency puts into the link line, from the last to the first.
fn note_line_part(notes: &mut Notes, dependency: &Dependency) -> Result<(), OutOfMemory>
    ensures { OnOk result (NotesNumbers notes.old
        (reverse (numbers (line_part dependency.now.node dependency.now.props dependency.now.kind))) notes.new) }
{
    match dependency.kind() {
        EdgeKind::Whole => note_from_end(notes, dependency.line()),
        EdgeKind::Static => {
            note_from_end(notes, dependency.line())?;
            notes.note(dependency.node())?;
            Ok(())
        }
        _ => Ok(()),
    }
}

/// Notes what all dependencies put into it, from the last to the first.
fn note_line(notes: &mut Notes, dependencies: &[Dependency]) -> Result<(), OutOfMemory>
    ensures { OnOk result (NotesNumbers notes.old
        (reverse (flat_map (λ d. numbers (line_part d.node d.props d.kind)) dependencies.now)) notes.new) }
{
    let mut index = dependencies.len();
    while index > 0 {
        index -= 1;
        note_line_part(notes, &dependencies[index])?;
    }
    Ok(())
}

/// How many nodes a dependency puts into a link line.
fn line_part_len(dependency: &Dependency) -> usize {
    match dependency.kind() {
        EdgeKind::Whole => dependency.line().len(),
        EdgeKind::Static => dependency.line().len().saturating_add(1),
        _ => 0,
    }
}

/// How many nodes all dependencies put into a link line.
fn line_len(dependencies: &[Dependency]) -> usize {
    let mut len: usize = 0;
    for dependency in dependencies {
        len = len.saturating_add(line_part_len(dependency));
    }
    len
}

/// The static libraries that a module is linked with, where they aren't too many.
pub fn link_line_of(
    alloc: Global,
    dependencies: &[Dependency],
) -> Result<Option<Vec<NodeId>>, OutOfMemory>
    ensures { IfOk result (λ line. option_map (λ line. line.items) line ≡ if_short (link_line_of dependencies.now)) }
{
    let mut notes = Notes::with_room(alloc, line_len(dependencies))?;
    note_line(&mut notes, dependencies)?;
    let Some(mut line) = notes.into_short() else {
        return Ok(None);
    };
    line.reverse();
    Ok(Some(line))
}

/// Notes a dependency that is a shared library.
fn note_shared_part(notes: &mut Notes, dependency: &Dependency) -> Result<(), OutOfMemory>
    ensures { OnOk result (NotesNumbers notes.old
        (numbers (shared_part dependency.now.node dependency.now.kind)) notes.new) }
{
    match dependency.kind() {
        EdgeKind::Shared => notes.note(dependency.node()),
        _ => Ok(()),
    }
}

/// Notes the shared libraries that a dependency needs.
fn note_needed_part(notes: &mut Notes, dependency: &Dependency) -> Result<(), OutOfMemory>
    ensures { OnOk result (NotesNumbers notes.old (numbers (needed_part dependency.now)) notes.new) }
{
    if dependency.is_archived() {
        note_all(notes, dependency.slibs())?;
    }
    Ok(())
}

/// Notes the shared libraries that a module asks for.
fn note_shared(notes: &mut Notes, dependencies: &[Dependency]) -> Result<(), OutOfMemory>
    ensures { OnOk result (NotesNumbers notes.old
        (flat_map (λ d. numbers (shared_part d.node d.kind)) dependencies.now) notes.new) }
{
    for dependency in dependencies {
        note_shared_part(notes, dependency)?;
    }
    Ok(())
}

/// Notes what its static libraries need.
fn note_needed(notes: &mut Notes, dependencies: &[Dependency]) -> Result<(), OutOfMemory>
    ensures { OnOk result
        (NotesNumbers notes.old (flat_map (λ d. numbers (needed_part d)) dependencies.now) notes.new) }
{
    for dependency in dependencies {
        note_needed_part(notes, dependency)?;
    }
    Ok(())
}

/// How many shared libraries a dependency is or needs.
fn slibs_part_len(dependency: &Dependency) -> usize {
    match dependency.kind() {
        EdgeKind::Whole | EdgeKind::Static => dependency.slibs().len(),
        EdgeKind::Shared => 1,
        _ => 0,
    }
}

/// How many shared libraries all dependencies are or need.
fn slibs_len(dependencies: &[Dependency]) -> usize {
    let mut len: usize = 0;
    for dependency in dependencies {
        len = len.saturating_add(slibs_part_len(dependency));
    }
    len
}

/// The shared libraries that a module is linked with, where they aren't too many.
pub fn slibs_of(
    alloc: Global,
    dependencies: &[Dependency],
) -> Result<Option<Vec<NodeId>>, OutOfMemory>
    ensures { IfOk result (λ list. option_map (λ list. list.items) list ≡ if_short (slibs_of dependencies.now)) }
{
    let mut notes = Notes::with_room(alloc, slibs_len(dependencies))?;
    note_shared(&mut notes, dependencies)?;
    note_needed(&mut notes, dependencies)?;
    Ok(notes.into_short())
}

ghost use Rattle.std.specs.Prelude.{map, Some};
ghost use Rattle.bp_props.specs.declared.fields.Field.TheVariants.{Group};
ghost use Rattle.property_values.specs.declared.row.PropKind.TheVariants as K;
ghost use Rattle.bp_faults.specs.Answers.{Leaves};
ghost use Rattle.bp_values.specs.Values.{map_entry_of, map_entries_then, no_map_entry};
ghost use Rattle.bp_props.specs.Records.{props_empty};
ghost use Rattle.property_tables.specs.Meaning.{each_entry, entry_set};
ghost use Rattle.property_tables.specs.Tables.{sanitize_table};
ghost use Rattle.property_values.specs.Fits.{props_set};
ghost use Rattle.property_tables.specs.Meaning.{groups_typed, inner_typed, entry_typed};
ghost use Rattle.property_tables.specs.Meaning.{module_entry as module_entry_as};

use crate::group_entries::{add_groups, group_of};
use crate::lookup::{module_row_of, row_of, within};
use crate::tables::{arch, multilib, sanitize, target};
use crate::{LoadError, PropKind, PropTable, Row};
use bp_faults::Path;
use bp_props::{Field, GroupId, ModuleKind, Props};
use bp_values::Entry;
use property_values::{entries, fitted, set_props};
use std::alloc::Global;

fn sanitize_entry(
    alloc: Global,
    dir: &Path,
    prefix: &str,
    props: &mut Props,
    entry: &Entry,
) -> Result<(), LoadError>
    ensures { Leaves (λ props. props) props.new result
        (entry_set props_set sanitize_table dir.now prefix.now props.old (map_entry_of entry.now)) }
{
    let row = row_of(alloc, &sanitize(), prefix, entry)?;
    let fit = fitted(alloc, dir, prefix, row, entry)?;
    set_props(props, row.effect, fit);
    Ok(())
}

fn add_sanitize(
    alloc: Global,
    dir: &Path,
    prefix: &str,
    props: &mut Props,
    entries: &[Entry],
) -> Result<(), LoadError>
    ensures { Leaves (λ props. props) props.new result
        (each_entry (entry_set props_set sanitize_table dir.now prefix.now) props.old
        (map_entries_then (map map_entry_of entries.now) no_map_entry)) }
{
    'entries: for entry in entries {
        sanitize_entry(alloc, dir, prefix, props, entry)?;
    }
    Ok(())
}

fn add_table(
    alloc: Global,
    dir: &Path,
    prefix: &str,
    table: &PropTable,
    props: &mut Props,
    entries: &[Entry],
) -> Result<(), LoadError>
    ensures { Leaves (λ props. props) props.new result
        (groups_typed dir.now prefix.now table.now props.old
        (map_entries_then (map map_entry_of entries.now) no_map_entry)) }
{
    add_groups(alloc, dir, prefix, table, &mut props.groups, entries)
}

fn add_group(
    alloc: Global,
    dir: &Path,
    prefix: &str,
    id: GroupId,
    props: &mut Props,
    entries: &[Entry],
) -> Result<(), LoadError>
    ensures { Leaves (λ props. props) props.new result
        (inner_typed dir.now prefix.now (Some (Group id)) props.old
        (map_entries_then (map map_entry_of entries.now) no_map_entry)) }
{
    let group = group_of(alloc, dir, prefix, entries)?;
    props.groups.insert(id, group)?;
    Ok(())
}

/// Puts what stands in a group of the file into a record.
fn open(
    alloc: Global,
    dir: &Path,
    prefix: &str,
    effect: Option<Field>,
    props: &mut Props,
    entries: &[Entry],
) -> Result<(), LoadError>
    ensures { Leaves (λ props. props) props.new result
        (inner_typed dir.now prefix.now effect props.old
        (map_entries_then (map map_entry_of entries.now) no_map_entry)) }
{
    match effect {
        Some(Field::Sanitize) => add_sanitize(alloc, dir, prefix, props, entries),
        Some(Field::Arch) => add_table(alloc, dir, prefix, &arch(), props, entries),
        Some(Field::Multilib) => add_table(alloc, dir, prefix, &multilib(), props, entries),
        Some(Field::Target) => add_table(alloc, dir, prefix, &target(), props, entries),
        Some(Field::Group(id)) => add_group(alloc, dir, prefix, id, props, entries),
        _ => Ok(()),
    }
}

fn add_map(
    alloc: Global,
    dir: &Path,
    effect: Option<Field>,
    props: &mut Props,
    entry: &Entry,
) -> Result<(), LoadError>
    ensures { Leaves (λ props. props) props.new result
        (entry_typed dir.now effect props.old (map_entry_of entry.now) K.Group) }
{
    let inside = entries(alloc, "", entry)?;
    let inner = within(alloc, "", &entry.name)?;
    open(alloc, dir, inner.as_str(), effect, props, inside)
}

fn add_entry(
    alloc: Global,
    dir: &Path,
    row: Row,
    props: &mut Props,
    entry: &Entry,
) -> Result<(), LoadError>
    ensures { Leaves (λ props. props) props.new result
        (entry_typed dir.now row.effect props.old (map_entry_of entry.now) row.kind) }
{
    match row.kind {
        PropKind::Group => add_map(alloc, dir, row.effect, props, entry),
        _ => {
            let fit = fitted(alloc, dir, "", row, entry)?;
            set_props(props, row.effect, fit);
            Ok(())
        }
    }
}

fn module_entry(
    alloc: Global,
    dir: &Path,
    kind: ModuleKind,
    props: &mut Props,
    entry: &Entry,
) -> Result<(), LoadError>
    ensures { Leaves (λ props. props) props.new result
        (module_entry_as dir.now kind props.old (map_entry_of entry.now)) }
{
    let row = module_row_of(alloc, kind, entry)?;
    add_entry(alloc, dir, row, props, entry)
}

/// Puts the entries of a module into its record.
pub(crate) fn put_entries(
    alloc: Global,
    dir: &Path,
    kind: ModuleKind,
    entries: &[Entry],
    props: &mut Props,
) -> Result<(), LoadError>
    ensures { Leaves (λ props. props) props.new result
        (each_entry (module_entry_as dir.now kind) props.old
        (map_entries_then (map map_entry_of entries.now) no_map_entry)) }
{
    'entries: for entry in entries {
        module_entry(alloc, dir, kind, props, entry)?;
    }
    Ok(())
}

ghost use Rattle.std.specs.Prelude.{◌≡◌, map, OnOk};
ghost use Rattle.bp_faults.specs.Answers.{Answers, Leaves};
ghost use Rattle.bp_values.specs.Values.{map_entry_of, map_entries_then, no_map_entry};
ghost use Rattle.property_tables.specs.Meaning.{each_entry, groups_with_group};
ghost use Rattle.property_tables.specs.Meaning.{entry_set};
ghost use Rattle.property_tables.specs.Tables.{group_table};
ghost use Rattle.property_values.specs.Fits.{group_set};
ghost use Rattle.property_tables.specs.Meaning.{group_typed, groups_entry as groups_entry_as};

use crate::lookup::{row_of, within};
use crate::tables::group;
use crate::{LoadError, PropTable};
use bp_faults::{OutOfMemory, Path};
use bp_props::{Field, GroupProps, Groups};
use bp_values::Entry;
use property_values::{entries, fitted, set_group};
use std::alloc::Global;

fn group_entry(
    alloc: Global,
    dir: &Path,
    prefix: &str,
    props: &mut GroupProps,
    entry: &Entry,
) -> Result<(), LoadError>
    ensures { Leaves (λ props. props) props.new result
        (entry_set group_set group_table dir.now prefix.now props.old (map_entry_of entry.now)) }
{
    let row = row_of(alloc, &group(), prefix, entry)?;
    let fit = fitted(alloc, dir, prefix, row, entry)?;
    set_group(props, row.effect, fit);
    Ok(())
}

/// The properties of a group.
pub(crate) fn group_of(
    alloc: Global,
    dir: &Path,
    prefix: &str,
    entries: &[Entry],
) -> Result<GroupProps, LoadError>
    ensures { Answers (λ props. props) result
        (group_typed dir.now prefix.now (map_entries_then (map map_entry_of entries.now) no_map_entry)) }
{
    let mut props = GroupProps::empty(alloc);
    'entries: for entry in entries {
        group_entry(alloc, dir, prefix, &mut props, entry)?;
    }
    Ok(props)
}

fn put_groups(
    groups: &mut Groups,
    effect: Option<Field>,
    props: GroupProps,
) -> Result<(), OutOfMemory>
    ensures { OnOk result (groups.new ≡ groups_with_group effect props groups.old) }
{
    match effect {
        Some(Field::Group(id)) => groups.insert(id, props),
        _ => Ok(()),
    }
}

fn groups_entry(
    alloc: Global,
    dir: &Path,
    prefix: &str,
    table: &PropTable,
    groups: &mut Groups,
    entry: &Entry,
) -> Result<(), LoadError>
    ensures { Leaves (λ groups. groups) groups.new result
        (groups_entry_as dir.now prefix.now table.now groups.old (map_entry_of entry.now)) }
{
    let row = row_of(alloc, table, prefix, entry)?;
    let inside = entries(alloc, prefix, entry)?;
    let inner = within(alloc, prefix, &entry.name)?;
    let props = group_of(alloc, dir, inner.as_str(), inside)?;
    put_groups(groups, row.effect, props)?;
    Ok(())
}

/// Puts the groups of a table into those of a record.
pub(crate) fn add_groups(
    alloc: Global,
    dir: &Path,
    prefix: &str,
    table: &PropTable,
    groups: &mut Groups,
    entries: &[Entry],
) -> Result<(), LoadError>
    ensures { Leaves (λ groups. groups) groups.new result
        (each_entry (groups_entry_as dir.now prefix.now table.now) groups.old
        (map_entries_then (map map_entry_of entries.now) no_map_entry)) }
{
    'entries: for entry in entries {
        groups_entry(alloc, dir, prefix, table, groups, entry)?;
    }
    Ok(())
}

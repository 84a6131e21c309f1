ghost use Rattle.std.specs.Prelude.{◌≡◌, ◌++◌, [], IfOk, option_map};
ghost use Rattle.bp_faults.specs.Answers.{Answers};
ghost use Rattle.bp_values.specs.Values.{map_entry_of};
ghost use Rattle.property_tables.specs.Tables.{property_of, table_of};
ghost use Rattle.property_tables.specs.Meaning.{property_or_unknown, property_in, inner_prefix as within_group};

use crate::tables::of_kind;
use crate::{LoadError, PropTable, Row};
use bp_faults::{FaultKind, OutOfMemory, Text};
use bp_props::ModuleKind;
use bp_values::Entry;
use property_values::entry_fault;
use std::alloc::Global;

fn known(alloc: Global, row: Option<Row>, prefix: &str, entry: &Entry) -> Result<Row, LoadError>
    ensures { Answers property_of result
        (property_or_unknown (map_entry_of entry.now).at (prefix.now ++ (map_entry_of entry.now).name)
        (option_map property_of row)) }
{
    match row {
        Some(row) => Ok(row),
        None => {
            let kind = FaultKind::UnknownProperty;
            let fault = entry_fault(alloc, kind, entry.at, prefix, &entry.name)?;
            Err(LoadError::Bad(fault))
        }
    }
}

/// The row of an entry of a group, in the group's table.
pub(crate) fn row_of(
    alloc: Global,
    table: &PropTable,
    prefix: &str,
    entry: &Entry,
) -> Result<Row, LoadError>
    ensures { Answers property_of result (property_in table.now prefix.now (map_entry_of entry.now)) }
{
    known(alloc, table.row(&entry.name), prefix, entry)
}

/// The row of an entry of a module, in the table of its kind.
pub(crate) fn module_row_of(
    alloc: Global,
    kind: ModuleKind,
    entry: &Entry,
) -> Result<Row, LoadError>
    ensures { Answers property_of result (property_in (table_of kind) [] (map_entry_of entry.now)) }
{
    row_of(alloc, &of_kind(kind), "", entry)
}

/// What stands before the names in a group.
pub(crate) fn within(alloc: Global, prefix: &str, name: &Text) -> Result<Text, OutOfMemory>
    ensures { IfOk result (λ inner. inner ≡ within_group prefix.now name.now) }
{
    let mut inner = Text::from_str(alloc, prefix)?;
    inner.push_str(name.as_str())?;
    inner.push_str(".")?;
    Ok(inner)
}

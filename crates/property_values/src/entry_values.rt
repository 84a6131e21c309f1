ghost use Rattle.std.specs.Prelude.{◌≡◌, ◌++◌, IfOk, map};
ghost use Rattle.bp_faults.specs.Answers.{Answers};
ghost use Rattle.bp_faults.specs.Faults.{fault_on};
ghost use Rattle.bp_faults.specs.declared.kind.FaultKind.TheVariants.{WrongType};
ghost use Rattle.bp_values.specs.Values.{map_entry_of, map_entries_then, no_map_entry};
ghost use Rattle.property_values.specs.Fits.{truth_in, word_in, list_in, map_in};

use crate::LoadError;
use bp_faults::{Fault, FaultKind, Item, OutOfMemory, Place, Text};
use bp_values::{Entry, Value};
use std::alloc::Global;

/// A fault of an entry, whose subject is its dotted path.
pub fn entry_fault(
    alloc: Global,
    kind: FaultKind,
    at: Place,
    prefix: &str,
    name: &Text,
) -> Result<Fault, OutOfMemory>
    ensures { IfOk result (λ fault. fault ≡ fault_on kind at (prefix.now ++ name.now)) }
{
    let mut path = Text::from_str(alloc, prefix)?;
    path.push_str(name.as_str())?;
    Ok(Fault::on(alloc, kind, at, path))
}

fn wrong_type(alloc: Global, prefix: &str, entry: &Entry) -> Result<Fault, OutOfMemory>
    ensures { IfOk result
        (λ fault. fault ≡ fault_on WrongType (map_entry_of entry.now).at
        (prefix.now ++ (map_entry_of entry.now).name)) }
{
    entry_fault(alloc, FaultKind::WrongType, entry.at, prefix, &entry.name)
}

/// The bool that an entry's value is.
pub(crate) fn truth(alloc: Global, prefix: &str, entry: &Entry) -> Result<bool, LoadError>
    ensures { Answers (λ b. b) result
        (truth_in (map_entry_of entry.now).at (prefix.now ++ (map_entry_of entry.now).name)
        (map_entry_of entry.now).value) }
{
    match &entry.value {
        Value::Bool(b) => Ok(*b),
        _ => Err(LoadError::Bad(wrong_type(alloc, prefix, entry)?)),
    }
}

/// The string that an entry's value is.
pub(crate) fn word<'a>(alloc: Global, prefix: &str, entry: &'a Entry) -> Result<&'a Text, LoadError>
    ensures { Answers (λ text. text.now) result
        (word_in (map_entry_of entry.now).at (prefix.now ++ (map_entry_of entry.now).name)
        (map_entry_of entry.now).value) }
{
    match &entry.value {
        Value::Str(text) => Ok(text),
        _ => Err(LoadError::Bad(wrong_type(alloc, prefix, entry)?)),
    }
}

/// The items of the list that an entry's value is.
pub(crate) fn list<'a>(
    alloc: Global,
    prefix: &str,
    entry: &'a Entry,
) -> Result<&'a [Item], LoadError>
    ensures { Answers (λ items. items.now) result
        (list_in (map_entry_of entry.now).at (prefix.now ++ (map_entry_of entry.now).name)
        (map_entry_of entry.now).value) }
{
    match &entry.value {
        Value::Strs(items) => Ok(items.as_slice()),
        _ => Err(LoadError::Bad(wrong_type(alloc, prefix, entry)?)),
    }
}

/// The entries of the map that an entry's value is.
pub fn entries<'a>(alloc: Global, prefix: &str, entry: &'a Entry) -> Result<&'a [Entry], LoadError>
    ensures { Answers (λ es. map_entries_then (map map_entry_of es.now) no_map_entry) result
        (map_in (map_entry_of entry.now).at (prefix.now ++ (map_entry_of entry.now).name)
        (map_entry_of entry.now).value) }
{
    match &entry.value {
        Value::Map(entries) => Ok(entries.as_slice()),
        _ => Err(LoadError::Bad(wrong_type(alloc, prefix, entry)?)),
    }
}

ghost use Rattle.std.specs.Prelude.{◌≡◌, List, ℕ, map, IfOk, IsTrue, ◌↔◌};
ghost use Rattle.bp_values.specs.Values.{meaning, map_entry_of, map_entries_then, no_map_entry, body, MapEntry};

use bp_faults::{Item, OutOfMemory, Place, Text, copy_all};
use bp_names::Named;
use std::alloc::Global;

/// What an expression stands for.
#[cycle(value)]
#[derive(Drop, PartialEq)]
pub enum Value {
    Bool(bool),
    Int(i64),
    Str(Text),
    Strs(Vec<Item>),
    Map(Vec<Entry>),
}

/// A property of a map, at the place of its name.
#[cycle(value)]
#[derive(Drop, PartialEq)]
pub struct Entry {
    pub name: Text,
    pub at: Place,
    pub value: Value,
}

impl Named for Entry {
    ghost use Rattle.bp_values.specs.Values.{map_entry_of};

    ghost name = { λ entry. (map_entry_of entry).name };

    #[tactic(auto, using(crate::proofs::Views::name_out))]
    fn name(&self) -> &str {
        self.name.as_str()
    }
}

#[cycle(copies)]
pub fn copy_value(alloc: Global, value: &Value) -> Result<Value, OutOfMemory>
    ensures { IfOk result (λ copy. meaning copy ≡ meaning value.now) }
{
    Ok(match value {
        Value::Bool(b) => Value::Bool(*b),
        Value::Int(n) => Value::Int(*n),
        Value::Str(text) => Value::Str(text.copy(alloc)?),
        Value::Strs(items) => Value::Strs(copy_all(alloc, items.as_slice())?),
        Value::Map(entries) => Value::Map(copy_entries(alloc, entries.as_slice())?),
    })
}

#[cycle(copies)]
pub fn copy_entries(alloc: Global, entries: &[Entry]) -> Result<Vec<Entry>, OutOfMemory>
    ensures { IfOk result (λ copy. map map_entry_of copy.items ≡ map map_entry_of entries.now) }
{
    let mut copy = Vec::with_capacity(alloc, entries.len())?;
    for entry in entries {
        copy.push(copy_entry(alloc, entry)?)?;
    }
    Ok(copy)
}

#[cycle(copies)]
pub fn copy_entry(alloc: Global, entry: &Entry) -> Result<Entry, OutOfMemory>
    ensures { IfOk result (λ copy. map_entry_of copy ≡ map_entry_of entry.now) }
{
    Ok(Entry {
        name: entry.name.copy(alloc)?,
        at: entry.at,
        value: copy_value(alloc, &entry.value)?,
    })
}

/// A text is copied in about the time in which so many bytes of files are evaluated, beside its own.
const BYTES_OF_A_TEXT: usize = 16;

/// A text is copied in about the time in which so many bytes of files are evaluated.
pub fn weight_of_text(text: &Text) -> usize {
    text.as_str().len().saturating_add(BYTES_OF_A_TEXT)
}

/// A value is copied in about the time in which so many bytes of files are evaluated.
#[cycle(weights)]
pub fn weight_of(value: &Value) -> usize {
    match value {
        Value::Str(text) => weight_of_text(text),
        Value::Strs(items) => weight_of_items(items.as_slice()),
        Value::Map(entries) => weight_of_entries(entries.as_slice()),
        _ => 0,
    }
}

fn weight_of_items(items: &[Item]) -> usize {
    let mut sum: usize = 0;
    for item in items {
        sum = sum.saturating_add(weight_of_text(&item.text));
    }
    sum
}

#[cycle(weights)]
fn weight_of_entries(entries: &[Entry]) -> usize {
    let mut sum: usize = 0;
    for entry in entries {
        sum = sum
            .saturating_add(weight_of_text(&entry.name))
            .saturating_add(weight_of(&entry.value));
    }
    sum
}

/// The map of these entries.
pub fn map_value(entries: Vec<Entry>) -> Value
    ensures { meaning result ≡ body (map map_entry_of entries.items) }
{
    Value::Map(entries)
}

/// An entry.
pub fn make_entry(name: Text, at: Place, value: Value) -> Entry
    ensures { map_entry_of result ≡ record { name = name; at = at; value = meaning value } }
{
    Entry { name, at, value }
}

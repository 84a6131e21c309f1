ghost use Rattle.std.specs.Prelude.{◌≡◌, ℤ, ◌+ℤ◌, List, ℕ, map, IfOk, length, position, [], ◌∷◌, OnOk, unwrap_or};
ghost use Rattle.std.specs.Prelude.{option_map, ◌++◌, Some, None, if◌then◌else◌, ◌||◌, ◌&&◌, is_some};
ghost use Rattle.std.specs.Str.{bytes_eq};
ghost use Rattle.bp_names.specs.Meaning.{knows, number_of};
ghost use Rattle.bp_values.specs.Values.{meaning, map_entry_of, map_entries_then, no_map_entry, MapEntry, map_entries_of, Truth, Number};
ghost use Rattle.bp_values.specs.Values.{Str, Items, Body, body};
ghost use Rattle.bp_faults.specs.Answers.{Answers};
ghost use Rattle.bp_faults.specs.Faults.{fault_on};
ghost use Rattle.bp_values.specs.Sums.{sum as sum_of, sum_entries, sum_number, sum_text, sum_item, sum_texts, sum_items};
ghost use Rattle.bp_values.specs.Sums.{sum_numbers, cannot_add as cannot_be_added, word as word_of, is_i64};
ghost use Rattle.bp_values.specs.Sums.{combined_value};
ghost use Rattle.bp_values.specs.Sums.{value_at};
ghost use Rattle.bp_values.specs.Inside.{IsIndex, HasMet, not_among};

use crate::value::{copy_entry, copy_value, make_entry, map_value};
use crate::{Entry, EvalError, Value};
use bp_faults::limits::{LONGEST_STRING, MOST_LIST_ITEMS};
use bp_faults::{Fault, FaultKind, Item, OutOfMemory, Payload, Place, Text, copy_all};
use bp_names::{NameSet, NameTable};
use std::alloc::Global;

/// The word for a value's type.
fn word(value: &Value) -> &'static str
    ensures { result.now ≡ word_of (meaning value.now) }
{
    match value {
        Value::Bool(_) => "bool",
        Value::Int(_) => "integer",
        Value::Str(_) => "string",
        Value::Strs(_) => "list",
        Value::Map(_) => "map",
    }
}

#[tactic(auto, unfolding(crate::specs::Sums::cannot_add))]
pub(crate) fn cannot_add(
    alloc: Global,
    at: Place,
    a: &Value,
    b: &Value,
) -> Result<Fault, OutOfMemory>
    ensures { IfOk result (λ f. f ≡ cannot_be_added at (meaning a.now) (meaning b.now)) }
{
    let first = word(a);
    let second = word(b);
    let subject = format!(in alloc; "{first} + {second}")?;
    Ok(Fault::on(alloc, FaultKind::BadSum, at, Text::new(subject)))
}

pub(crate) fn too_many(alloc: Global, at: Place, what: &str) -> Result<Fault, OutOfMemory>
    ensures { IfOk result (λ f. f ≡ fault_on FaultKind.TooMany at what.now) }
{
    let subject = String::from_str(alloc, what)?;
    Ok(Fault::on(alloc, FaultKind::TooMany, at, Text::new(subject)))
}

/// Both texts, the second put behind the first.
fn join(alloc: Global, at: Place, mut first: Text, second: &Text) -> Result<Value, EvalError>
    ensures { Answers meaning result (sum_texts at first second.now) }
{
    if first.as_str().len() + second.as_str().len() > LONGEST_STRING {
        return Err(EvalError::Bad(too_many(alloc, at, "string")?));
    }
    first.push_str(second.as_str())?;
    Ok(Value::Str(first))
}

/// The items of both, those of `first` first.
fn append(
    alloc: Global,
    at: Place,
    mut first: Vec<Item>,
    mut second: Vec<Item>,
) -> Result<Value, EvalError>
    ensures { Answers meaning result (sum_items at first.items second.items) }
{
    if first.len() + second.len() > MOST_LIST_ITEMS {
        return Err(EvalError::Bad(too_many(alloc, at, "list")?));
    }
    first.append(&mut second)?;
    Ok(Value::Strs(first))
}

fn added(a: i64, b: i64) -> Option<i64>
    ensures { result ≡ (if is_i64 (a +ℤ b) then Some (a +ℤ b) else None) }
{
    let sum = a as i128 + b as i128;
    if sum < i64::MIN as i128 || sum > i64::MAX as i128 {
        None
    } else {
        Some(sum as i64)
    }
}

/// The first index of each name.
fn index<'a>(alloc: Global, entries: &'a [Entry]) -> Result<NameTable<'a>, OutOfMemory>
    ensures { IfOk result (λ table. IsIndex table (map map_entry_of entries.now)) }
{
    if entries.len() >= 1 << 32 {
        return Err(OutOfMemory);
    }
    let table = NameTable::of(alloc, entries)?;
    Ok(table)
}

/// The entry of a name.
fn find<'a>(table: &NameTable<'_>, entries: &'a [Entry], name: &Text) -> Option<&'a Entry>
    requires { IsIndex table.now (map map_entry_of entries.now) }
    ensures { option_map (λ e. (map_entry_of e.now).value) result ≡ value_at name.now (map map_entry_of entries.now) }
{
    match table.number_of(name.as_str()) {
        Some(number) => Some(&entries[number as usize]),
        None => None,
    }
}

/// The sum of two values: *cannot add* or *too many* where there is none.
pub fn sum(alloc: Global, a: &Value, b: &Value, at: Place) -> Result<Value, EvalError>
    ensures { Answers meaning result (sum_of at (meaning a.now) (meaning b.now)) }
{
    let total = copy_value(alloc, a)?;
    add_copy(alloc, total, b, at)
}

/// The sum of two values that are no longer needed: what is only passed on is moved.
pub(crate) fn add(alloc: Global, a: Value, b: Value, at: Place) -> Result<Value, EvalError>
    ensures { Answers meaning result (sum_of at (meaning a) (meaning b)) }
{
    match (a, b) {
        (Value::Strs(first), Value::Strs(second)) => append(alloc, at, first, second),
        (Value::Map(first), Value::Map(second)) => {
            Ok(map_value(unite(alloc, at, first, second)?))
        }
        (a, b) => add_copy(alloc, a, &b, at),
    }
}

/// The sum of a value that is no longer needed and of one that stays.
#[cycle(sums)]
pub(crate) fn add_copy(alloc: Global, a: Value, b: &Value, at: Place) -> Result<Value, EvalError>
    ensures { Answers meaning result (sum_of at (meaning a) (meaning b.now)) }
{
    match (a, b) {
        (Value::Int(m), Value::Int(n)) => match added(m, *n) {
            Some(total) => Ok(Value::Int(total)),
            None => Err(EvalError::Bad(cannot_add(alloc, at, &Value::Int(m), b)?)),
        },
        (Value::Str(first), Value::Str(second)) => join(alloc, at, first, second),
        (Value::Strs(first), Value::Strs(second)) => {
            append(alloc, at, first, copy_all(alloc, second.as_slice())?)
        }
        (Value::Map(first), Value::Map(second)) => {
            unite_copy(alloc, at, first, second.as_slice())
        }
        (a, b) => Err(EvalError::Bad(cannot_add(alloc, at, &a, b)?)),
    }
}

/// The entries of `first`, each with its sum, then a copy of the others of `second`.
#[cycle(sums)]
fn unite_copy(
    alloc: Global,
    at: Place,
    first: Vec<Entry>,
    second: &[Entry],
) -> Result<Value, EvalError>
    ensures { Answers meaning result
        (sum_of at (body (map map_entry_of first.items)) (body (map map_entry_of second.now))) }
{
    let table = index(alloc, second)?;
    let mut entries = sum_each(alloc, at, first, second, &table)?;
    let met = names_met(alloc, entries.as_slice(), &table)?;
    let mut others = copy_others(alloc, second, &met)?;
    drop(met);
    entries.append(&mut others)?;
    Ok(map_value(entries))
}

/// The entries of `first`, each with its sum, then the others of `second`.
pub(crate) fn unite(
    alloc: Global,
    at: Place,
    first: Vec<Entry>,
    second: Vec<Entry>,
) -> Result<Vec<Entry>, EvalError>
    ensures { Answers (λ es. body (map map_entry_of es.items)) result
        (sum_of at (body (map map_entry_of first.items)) (body (map map_entry_of second.items))) }
{
    let table = index(alloc, second.as_slice())?;
    let mut entries = sum_each(alloc, at, first, second.as_slice(), &table)?;
    let met = names_met(alloc, entries.as_slice(), &table)?;
    drop(table);
    let mut others = move_others(alloc, second, &met)?;
    drop(met);
    entries.append(&mut others)?;
    Ok(entries)
}

/// Each entry of `first`, with its sum where `second` has its name.
#[cycle(sums)]
fn sum_each(
    alloc: Global,
    at: Place,
    first: Vec<Entry>,
    second: &[Entry],
    table: &NameTable<'_>,
) -> Result<Vec<Entry>, EvalError>
    requires { IsIndex table.now (map map_entry_of second.now) }
    ensures { Answers (λ es. map map_entry_of es.items) result
        (sum_entries at (map_entries_then (map map_entry_of first.items) no_map_entry) (map map_entry_of second.now)) }
{
    let mut entries = Vec::with_capacity(alloc, first.len())?;
    for entry in first {
        let value = meet(alloc, entry.value, find(table, second, &entry.name), at)?;
        entries.push(make_entry(entry.name, entry.at, value))?;
    }
    Ok(entries)
}

/// The value alone, or its sum with another.
#[cycle(sums)]
fn meet(alloc: Global, value: Value, other: Option<&Entry>, at: Place) -> Result<Value, EvalError>
    ensures { Answers meaning result
        (combined_value (meaning value) (sum_of at (meaning value))
        (option_map (λ e. (map_entry_of e.now).value) other.entry)) }
{
    match other {
        Some(entry) => add_copy(alloc, value, &entry.value, at),
        None => Ok(value),
    }
}

/// Notes a name where the table has it.
fn meet_name<'a>(
    met: &mut NameSet<'a>,
    name: &'a Text,
    table: &NameTable<'_>,
) -> Result<(), OutOfMemory>
    ensures { OnOk result ((q : List ℕ) → knows met.new q
        ≡ (knows met.old q || (bytes_eq q name.now && is_some (number_of table.now q)))) }
{
    if table.number_of(name.as_str()).is_some() {
        met.learn(name.as_str())?;
    }
    Ok(())
}

/// The names of the entries that the table has.
fn names_met<'a>(
    alloc: Global,
    entries: &'a [Entry],
    table: &NameTable<'_>,
) -> Result<NameSet<'a>, OutOfMemory>
    ensures { IfOk result (λ met. HasMet met table.now (map map_entry_of entries.now)) }
{
    let mut met = NameSet::new(alloc);
    for entry in entries {
        meet_name(&mut met, &entry.name, table)?;
    }
    Ok(met)
}

/// The entries whose names weren't met.
fn move_others(
    alloc: Global,
    others: Vec<Entry>,
    met: &NameSet<'_>,
) -> Result<Vec<Entry>, OutOfMemory>
    ensures { IfOk result (λ left. map map_entry_of left.items ≡ not_among met.now (map map_entry_of others.items)) }
{
    let mut left = Vec::new(alloc);
    for entry in others {
        push_unless(&mut left, met.knows(entry.name.as_str()), entry)?;
    }
    Ok(left)
}

fn push_unless(entries: &mut Vec<Entry>, met: bool, entry: Entry) -> Result<(), OutOfMemory>
    ensures { OnOk result (map map_entry_of entries.new.items
        ≡ map map_entry_of entries.old.items ++ (if met then [] else (map_entry_of entry ∷ []))) }
{
    if !met {
        entries.push(entry)?;
    }
    Ok(())
}

/// A copy of the entries whose names weren't met.
fn copy_others(
    alloc: Global,
    others: &[Entry],
    met: &NameSet<'_>,
) -> Result<Vec<Entry>, OutOfMemory>
    ensures { IfOk result (λ left. map map_entry_of left.items ≡ not_among met.now (map map_entry_of others.now)) }
{
    let mut left = Vec::new(alloc);
    for entry in others {
        copy_unless(alloc, &mut left, met.knows(entry.name.as_str()), entry)?;
    }
    Ok(left)
}

fn copy_unless(
    alloc: Global,
    entries: &mut Vec<Entry>,
    met: bool,
    entry: &Entry,
) -> Result<(), OutOfMemory>
    ensures { OnOk result (map map_entry_of entries.new.items
        ≡ map map_entry_of entries.old.items ++ (if met then [] else (map_entry_of entry.now ∷ []))) }
{
    if !met {
        entries.push(copy_entry(alloc, entry)?)?;
    }
    Ok(())
}

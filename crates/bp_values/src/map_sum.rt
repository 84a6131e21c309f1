ghost use Rattle.std.specs.Prelude.{◌≡◌, ◌++◌, ◌≤◌, ◌<◌, ℕ, List, map, length, take, is_some, None, Some, IfOk, IfSome};
ghost use Rattle.std.specs.Prelude.{OnOk, if◌then◌else◌, option_map};
ghost use Rattle.std.specs.Option.{option_or};
ghost use Rattle.bp_values.specs.Values.{meaning, map_entry_of, body};
ghost use Rattle.bp_values.specs.Sums.{sum as sum_of};
ghost use Rattle.bp_values.specs.IndexTable.{found_index};
ghost use Rattle.bp_values.specs.Indices.{IsIndexed, Indices, names_in, value_for, unindexed_entries, is_index};
ghost use Rattle.bp_values.specs.Indices.{value_at_index};
ghost use Rattle.bp_values.specs.Indices.{sum_at};
ghost use Rattle.bp_values.specs.MapIndices.{IndicesOf, AreKnown};
ghost use Rattle.bp_values.specs.Inside.{sum_so_far, HasIndices};
ghost use Rattle.bp_faults.specs.Answers.{Answers, Leaves};

use crate::index_table::IndexTable;
use crate::map_indices::{MapIndices, keep_below};
use crate::sums::{add, cannot_add, unite};
use crate::value::{make_entry, map_value};
use crate::{Entry, EvalError, Value};
use bp_faults::{OutOfMemory, Place, Text};
use std::alloc::Global;
use std::collections::BTreeMap;
use std::mem;

/// A map to which others are added in turn.
#[derive(Drop)]
pub struct MapSum {
    entries: Vec<Entry>,
    // The indices of its names, once another map was added, unless two names are equal.
    indices: Option<MapIndices>,
}

impl MapSum {
    pub fn of(entries: Vec<Entry>) -> MapSum
        ensures total { sum_so_far result ≡ body (map map_entry_of entries.items) }
        ensures indices { HasIndices result }
    {
        MapSum {
            entries,
            indices: None,
        }
    }

    /// The sum with one value more.
    #[cycle(map_sums)]
    pub fn add(self, alloc: Global, other: Value, at: Place) -> Result<MapSum, EvalError>
        requires { HasIndices self }
        ensures total { Answers sum_so_far result (sum_of at (sum_so_far self) (meaning other)) }
        ensures indices { IfOk result HasIndices }
    {
        let MapSum { entries, indices } = self;
        match other {
            Value::Map(second) => match known(alloc, indices, entries.as_slice())? {
                Some(indices) => add_indexed(alloc, at, entries, indices, second),
                None => Ok(MapSum::of(unite(alloc, at, entries, second)?)),
            },
            other => {
                let first = map_value(entries);
                Err(EvalError::Bad(cannot_add(alloc, at, &first, &other)?))
            }
        }
    }

    pub fn into_value(self) -> Value
        ensures { meaning result ≡ sum_so_far self }
    {
        map_value(self.entries)
    }
}

/// The sum of a value and one more, from the indices of the first one's names to those of the sum's.
#[cycle(map_sums)]
pub fn add_to(
    alloc: Global,
    first: Value,
    indices: Option<MapIndices>,
    other: Value,
    at: Place,
) -> Result<(Value, Option<MapIndices>), EvalError>
    requires { IndicesOf indices (Some (meaning first)) }
    ensures value { Answers (λ r. meaning r.0) result (sum_of at (meaning first) (meaning other)) }
    ensures indices { IfOk result (λ r. IndicesOf r.1 (Some (meaning r.0))) }
{
    match first {
        Value::Map(entries) => {
            let MapSum { entries, indices } = MapSum { entries, indices }.add(alloc, other, at)?;
            Ok((map_value(entries), indices))
        }
        first => Ok((add(alloc, first, other, at)?, None)),
    }
}

/// The indices of the names of the entries, unless two of them are equal.
fn known(
    alloc: Global,
    indices: Option<MapIndices>,
    entries: &[Entry],
) -> Result<Option<MapIndices>, OutOfMemory>
    requires { IndicesOf indices (Some (body (map map_entry_of entries.now))) }
    ensures { IfOk result (λ all. IndicesOf all (Some (body (map map_entry_of entries.now)))) }
{
    if let Some(indices) = indices {
        return Ok(Some(indices));
    }
    match with_names(alloc, IndexTable::new(alloc), entries, 0)? {
        Some(names) => Ok(Some(MapIndices {
            names,
            below: BTreeMap::new(alloc),
        })),
        None => Ok(None),
    }
}

/// The indices of the names, those of the entries from one on put to the others, unless two names are
/// equal.
fn with_names(
    alloc: Global,
    names: IndexTable,
    entries: &[Entry],
    from: usize,
) -> Result<Option<IndexTable>, OutOfMemory>
    requires within { from ≤ length entries.now }
    requires indexed { IsIndexed (found_index names) (names_in (map map_entry_of (take from entries.now))) }
    ensures { IfOk result (λ all. Indices all (names_in (map map_entry_of entries.now))) }
{
    let mut all = names;
    for index in from..entries.len() {
        let entry = &entries[index];
        if all.index_of(&entry.name).is_some() {
            return Ok(None);
        }
        all.put(alloc, &entry.name, index)?;
    }
    Ok(Some(all))
}

/// The sum of two maps, by the indices of the first one's names.
///
/// Shared names are added in the order of their indices, as the first fault is that of the least index.
#[cycle(map_sums)]
fn add_indexed(
    alloc: Global,
    at: Place,
    first: Vec<Entry>,
    indices: MapIndices,
    second: Vec<Entry>,
) -> Result<MapSum, EvalError>
    requires { IndicesOf (Some indices) (Some (body (map map_entry_of first.items))) }
    ensures total { Answers sum_so_far result
        (sum_of at (body (map map_entry_of first.items)) (body (map map_entry_of second.items))) }
    ensures indices { IfOk result HasIndices }
{
    let MapIndices { names, mut below } = indices;
    let (shared, others) = split(alloc, &names, second)?;
    let mut entries = first;
    for (index, value) in shared {
        add_at(alloc, at, &mut entries, &mut below, index, value)?;
    }
    Ok(with_others(alloc, entries, names, below, others)?)
}

/// The sum of a map whose indices are known and of entries with other names.
fn with_others(
    alloc: Global,
    entries: Vec<Entry>,
    names: IndexTable,
    below: BTreeMap<usize, MapIndices>,
    others: Vec<Entry>,
) -> Result<MapSum, OutOfMemory>
    requires indexed { IsIndexed (found_index names) (names_in (map map_entry_of entries.items)) }
    requires known { AreKnown below (map map_entry_of entries.items) }
    ensures total { IfOk result
        (λ sum. sum_so_far sum ≡ body (map map_entry_of entries.items ++ map map_entry_of others.items)) }
    ensures indices { IfOk result HasIndices }
{
    let (mut all, mut others) = (entries, others);
    let from = all.len();
    all.append(&mut others)?;
    match with_names(alloc, names, all.as_slice(), from)? {
        Some(names) => Ok(MapSum {
            entries: all,
            indices: Some(MapIndices { names, below }),
        }),
        None => Ok(MapSum::of(all)),
    }
}

/// The values whose names have indices, by their indices, and the other entries.
fn split(
    alloc: Global,
    names: &IndexTable,
    second: Vec<Entry>,
) -> Result<(BTreeMap<usize, Value>, Vec<Entry>), OutOfMemory>
    ensures shared { IfOk result
        (λ r. (i : ℕ) → value_at_index r.0 i ≡ value_for (found_index names.now) i (map map_entry_of second.items)) }
    ensures others { IfOk result
        (λ r. map map_entry_of r.1.items ≡ unindexed_entries (found_index names.now) (map map_entry_of second.items)) }
{
    let mut shared = BTreeMap::new(alloc);
    let mut others = Vec::new(alloc);
    for entry in second {
        match names.index_of(&entry.name) {
            Some(index) => put_first(&mut shared, index, entry.value)?,
            None => others.push(entry)?,
        }
    }
    Ok((shared, others))
}

/// Puts a value at an index, unless there is one.
fn put_first(
    shared: &mut BTreeMap<usize, Value>,
    index: usize,
    value: Value,
) -> Result<(), OutOfMemory>
    ensures { OnOk result ((i : ℕ) → value_at_index shared.new i
        ≡ option_or (value_at_index shared.old i) (if is_index (Some index) i then Some (meaning value) else None)) }
{
    if !shared.contains_key(&index) {
        shared.insert(index, value)?;
    }
    Ok(())
}

/// Adds a value to that of an entry.
#[cycle(map_sums)]
fn add_at(
    alloc: Global,
    at: Place,
    entries: &mut Vec<Entry>,
    below: &mut BTreeMap<usize, MapIndices>,
    index: usize,
    other: Value,
) -> Result<(), EvalError>
    requires within { index < length entries.old.items }
    requires known { AreKnown below.old (map map_entry_of entries.old.items) }
    ensures len { length entries.new.items ≡ length entries.old.items }
    ensures sum { Leaves (λ es. map map_entry_of es.items) entries.new result
        (sum_at at (map map_entry_of entries.old.items) index (meaning other)) }
    ensures known { OnOk result (AreKnown below.new (map map_entry_of entries.new.items)) }
{
    let blank = make_entry(Text::new(String::new(alloc)), at, Value::Bool(false));
    let Entry {
        name,
        at: named_at,
        value,
    } = mem::replace(&mut entries[index], blank);
    let indices = below.remove(&index);
    let (value, indices) = add_to(alloc, value, indices, other, at)?;
    entries[index] = make_entry(name, named_at, value);
    keep_below(below, index, indices)?;
    Ok(())
}

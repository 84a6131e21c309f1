ghost use Rattle.std.specs.Prelude.{◌≡◌, ◌≤◌, IfOk, Some, string_bytes, option_map};
ghost use Rattle.std.specs.FinMap.{get};
ghost use Rattle.near_names.specs.Nearest.{nearest_names};
ghost use Rattle.std.specs.Option.{option_copied};
ghost use Rattle.fault_view.specs.declared.unknown.Unknown.TheVariants.{Module};
ghost use Rattle.fault_view.specs.Known.{table_names, type_names};
ghost use Rattle.fault_view.specs.Unknown.{unknown_of, last_parts};
ghost use Rattle.fault_view.specs.View.{Softly, bytes_within, AreNearest, names_line, shown_of, IsNote};

use crate::excerpt::excerpt;
use crate::fault_line::FaultLine;
use crate::files::{module_names, source};
use crate::known::{property_names, type_names};
use crate::unknown::{Unknown, last_parts, unknown_of};
use bp_faults::limits::LARGEST_ORDER_FILE;
use bp_faults::{OutOfMemory, Text};
use bp_ports::Store;
use near_names::{joined, nearest};
use std::alloc::Global;

// The properties that are nearest to a property.
fn nearest_properties(alloc: Global, property: &str) -> Result<Vec<Text>, OutOfMemory>
    ensures { IfOk result
        (λ names. names.items ≡ nearest_names (table_names (last_parts property.now).0) (last_parts property.now).1) }
{
    let (group, word) = last_parts(alloc, property)?;
    let known = property_names(alloc, group)?;
    let names = nearest(alloc, &known, word)?;
    Ok(names)
}

// The known modules that are nearest to one.
fn nearest_modules<S: Store>(
    alloc: Global,
    store: &mut S,
    list: Option<&Text>,
    path: &Text,
    word: &str,
) -> Result<Vec<Text>, OutOfMemory>
    ensures files { S.files store.new ≡ S.files store.old }
    ensures reads { S.read_faults store.old ≤ S.read_faults store.new }
    ensures exact { IfOk result (λ names. Softly (S.files store.old) (S.read_faults store.old) (S.read_faults store.new)
        (λ files. AreNearest (option_copied list.entry) files path.now (Some (Module, word.now)) names.items)) }
{
    let known = module_names(alloc, store, list, path)?;
    let names = nearest(alloc, &known, word)?;
    Ok(names)
}

// The types that are nearest to one.
fn nearest_types(alloc: Global, word: &str) -> Result<Vec<Text>, OutOfMemory>
    ensures { IfOk result (λ names. names.items ≡ nearest_names type_names word.now) }
{
    let known = type_names(alloc)?;
    let names = nearest(alloc, &known, word)?;
    Ok(names)
}

// The known names that are nearest to what is unknown.
fn nearest_names<S: Store>(
    alloc: Global,
    store: &mut S,
    list: Option<&Text>,
    path: &Text,
    unknown: Unknown,
    word: &str,
) -> Result<Vec<Text>, OutOfMemory>
    ensures files { S.files store.new ≡ S.files store.old }
    ensures reads { S.read_faults store.old ≤ S.read_faults store.new }
    ensures exact { IfOk result (λ names. Softly (S.files store.old) (S.read_faults store.old) (S.read_faults store.new)
        (λ files. AreNearest (option_copied list.entry) files path.now (Some (unknown, word.now)) names.items)) }
{
    match unknown {
        Unknown::ModuleType => nearest_types(alloc, word),
        Unknown::Property => nearest_properties(alloc, word),
        Unknown::Module => nearest_modules(alloc, store, list, path, word),
    }
}

// The known names that are nearest to what a line says is unknown.
fn names<S: Store>(
    alloc: Global,
    store: &mut S,
    list: Option<&Text>,
    line: &FaultLine,
) -> Result<Vec<Text>, OutOfMemory>
    ensures files { S.files store.new ≡ S.files store.old }
    ensures reads { S.read_faults store.old ≤ S.read_faults store.new }
    ensures exact { IfOk result (λ names. Softly (S.files store.old) (S.read_faults store.old) (S.read_faults store.new)
        (λ files. AreNearest (option_copied list.entry) files line.now.path (unknown_of line.now) names.items)) }
{
    match unknown_of(line) {
        Some((unknown, word)) => nearest_names(alloc, store, list, &line.path, unknown, word),
        None => Ok(Vec::new(alloc)),
    }
}

// The line of names, or nothing where there are none.
fn names_line(alloc: Global, names: &[Text]) -> Result<String, OutOfMemory>
    ensures { IfOk result (λ line. string_bytes line ≡ names_line names.now) }
{
    if names.is_empty() {
        return Ok(String::new(alloc));
    }
    let names = joined(alloc, names)?;
    Ok(format!(in alloc; "nearest: {names}\n")?)
}

// The excerpt of the file that a line names.
fn shown<S: Store>(
    alloc: Global,
    store: &mut S,
    line: &FaultLine,
) -> Result<Option<String>, OutOfMemory>
    ensures files { S.files store.new ≡ S.files store.old }
    ensures reads { S.read_faults store.old ≤ S.read_faults store.new }
    ensures exact { IfOk result (λ shown. Softly (S.files store.old) (S.read_faults store.old) (S.read_faults store.new)
        (λ files. option_map string_bytes shown
        ≡ shown_of (bytes_within LARGEST_ORDER_FILE (get files line.now.path)) line.now)) }
{
    match source(alloc, store, &line.path, LARGEST_ORDER_FILE)? {
        Some(bytes) => excerpt(alloc, &bytes, line.line, line.col),
        None => Ok(None),
    }
}

/// What stands behind a fault line.
pub fn note<S: Store>(
    alloc: Global,
    store: &mut S,
    list: Option<&Text>,
    line: &FaultLine,
) -> Result<String, OutOfMemory>
    ensures files { S.files store.new ≡ S.files store.old }
    ensures reads { S.read_faults store.old ≤ S.read_faults store.new }
    ensures exact { IfOk result (λ note. Softly (S.files store.old) (S.read_faults store.old) (S.read_faults store.new)
        (λ files. IsNote (option_copied list.entry) files line.now (string_bytes note))) }
{
    let Some(mut text) = shown(alloc, store, line)? else {
        return Ok(String::new(alloc));
    };
    let names = names(alloc, store, list, line)?;
    let names = names_line(alloc, &names)?;
    text.push_str(names.as_str())?;
    Ok(text)
}

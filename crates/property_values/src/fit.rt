ghost use Rattle.std.specs.Prelude.{◌≡◌, ◌++◌, IsTrue, IfOk, [], None};
ghost use Rattle.std.specs.List.{list_all};
ghost use Rattle.std.specs.Char.{is_ascii_digit};
ghost use Rattle.std.specs.Str.Parse.{digits_value};
ghost use Rattle.bp_faults.specs.Answers.{Answers};
ghost use Rattle.bp_values.specs.Values.{map_entry_of};
ghost use Rattle.property_values.specs.Fits.{multi_in, level_in, is_number as number, in_levels as levels, dir_in};
ghost use Rattle.property_values.specs.Fits.{base_of, fit_of, given_at, listed_at};
ghost use Rattle.bp_faults.specs.Phases.{each_in_turn};
ghost use Rattle.property_values.specs.declared.row.PropKind.TheVariants as K;

use crate::entry_values::{entries, entry_fault, list, truth, word};
use crate::list_items::{dirs, flags, names, sources};
use crate::{LoadError, PropKind, Row};
use bp_faults::{FaultKind, Item, OutOfMemory, Path, Place, Seq, Text};
use bp_props::{Field, Given, Listed, Multi, Source};
use bp_values::Entry;
use std::alloc::Global;

/// What a value stands for once it fits its property, as a record keeps it.
#[derive(Drop)]
pub enum Fit {
    Truth(Given<bool>),
    Word(Given<Text>),
    Multi(Given<Multi>),
    Level(Given<u32>),
    Flags(Listed<Text>),
    Dirs(Listed<Path>),
    Names(Listed<Item>),
    Sources(Listed<Source>),
    /// Nothing is set: the property has no effect, or the word is no level.
    Unset,
}

fn given<T>(at: Place, value: T) -> Given<T>
    ensures { result ≡ given_at at value }
{
    Given { value, at }
}

fn listed<T: Drop>(alloc: Global, at: Place, items: Seq<T>) -> Result<Listed<T>, OutOfMemory>
    ensures { IfOk result (λ list. list ≡ listed_at at items) }
{
    Listed::new(alloc, items, Some(at))
}

fn multi(alloc: Global, prefix: &str, name: &Text, at: Place, word: &Text) -> Result<Fit, LoadError>
    ensures { Answers (λ fit. fit) result (multi_in at (prefix.now ++ name.now) word.now) }
{
    match word.as_str() {
        "both" => Ok(Fit::Multi(given(at, Multi::Both))),
        "first" => Ok(Fit::Multi(given(at, Multi::First))),
        "32" => Ok(Fit::Multi(given(at, Multi::Only32))),
        "64" => Ok(Fit::Multi(given(at, Multi::Only64))),
        _ => {
            let fault = entry_fault(alloc, FaultKind::BadValue, at, prefix, name)?;
            Err(LoadError::Bad(fault))
        }
    }
}

fn has_digits_alone(word: &str) -> bool
    ensures { result ≡ list_all is_ascii_digit word.now }
{
    word.as_bytes().iter().all(|byte| byte.is_ascii_digit())
}

fn is_number(word: &str) -> bool
    ensures { result ≡ number word.now }
{
    !word.is_empty() && has_digits_alone(word)
}

fn in_levels(level: u32) -> Option<u32>
    ensures { result ≡ levels level }
{
    if 1 <= level && level <= 9999 {
        Some(level)
    } else {
        None
    }
}

/// The level that a number is.
fn level_of(word: &str) -> Option<u32>
    requires { IsTrue (number word.now) }
    ensures { result ≡ levels (digits_value 10 word.now) }
{
    match word.parse::<u32>() {
        Ok(level) => in_levels(level),
        Err(_) => None,
    }
}

fn level(alloc: Global, prefix: &str, name: &Text, at: Place, word: &Text) -> Result<Fit, LoadError>
    ensures { Answers (λ fit. fit) result (level_in at (prefix.now ++ name.now) word.now) }
{
    if !is_number(word.as_str()) {
        return Ok(Fit::Unset);
    }
    match level_of(word.as_str()) {
        Some(level) => Ok(Fit::Level(given(at, level))),
        None => {
            let fault = entry_fault(alloc, FaultKind::BadValue, at, prefix, name)?;
            Err(LoadError::Bad(fault))
        }
    }
}

/// The directories of a list; those of `include_dirs` are relative to the root.
fn dirs_of(
    alloc: Global,
    dir: &Path,
    effect: Option<Field>,
    items: &[Item],
) -> Result<Seq<Path>, LoadError>
    ensures { Answers (λ dirs. dirs) result (each_in_turn (dir_in (base_of dir.now effect)) items.now) }
{
    match effect {
        Some(Field::IncludeDirs) => dirs(alloc, &Path::root(alloc), items),
        _ => dirs(alloc, dir, items),
    }
}

fn truth_fit(alloc: Global, prefix: &str, entry: &Entry) -> Result<Fit, LoadError>
    ensures { Answers (λ fit. fit) result
        (fit_of [] None (prefix.now ++ (map_entry_of entry.now).name) (map_entry_of entry.now) K.Bool) }
{
    let truth = truth(alloc, prefix, entry)?;
    Ok(Fit::Truth(given(entry.at, truth)))
}

fn word_fit(alloc: Global, prefix: &str, entry: &Entry) -> Result<Fit, LoadError>
    ensures { Answers (λ fit. fit) result
        (fit_of [] None (prefix.now ++ (map_entry_of entry.now).name) (map_entry_of entry.now) K.Word) }
{
    let word = word(alloc, prefix, entry)?;
    Ok(Fit::Word(given(entry.at, word.copy(alloc)?)))
}

fn flags_fit(alloc: Global, prefix: &str, entry: &Entry) -> Result<Fit, LoadError>
    ensures { Answers (λ fit. fit) result
        (fit_of [] None (prefix.now ++ (map_entry_of entry.now).name) (map_entry_of entry.now) K.Flags) }
{
    let items = list(alloc, prefix, entry)?;
    let flags = flags(alloc, prefix, &entry.name, items)?;
    Ok(Fit::Flags(listed(alloc, entry.at, flags)?))
}

fn names_fit(alloc: Global, prefix: &str, entry: &Entry) -> Result<Fit, LoadError>
    ensures { Answers (λ fit. fit) result
        (fit_of [] None (prefix.now ++ (map_entry_of entry.now).name) (map_entry_of entry.now) K.Names) }
{
    let items = list(alloc, prefix, entry)?;
    let names = names(alloc, items)?;
    Ok(Fit::Names(listed(alloc, entry.at, names)?))
}

fn sources_fit(alloc: Global, dir: &Path, prefix: &str, entry: &Entry) -> Result<Fit, LoadError>
    ensures { Answers (λ fit. fit) result
        (fit_of dir.now None (prefix.now ++ (map_entry_of entry.now).name) (map_entry_of entry.now) K.Paths) }
{
    let items = list(alloc, prefix, entry)?;
    let sources = sources(alloc, dir, items)?;
    Ok(Fit::Sources(listed(alloc, entry.at, sources)?))
}

fn dirs_fit(
    alloc: Global,
    dir: &Path,
    prefix: &str,
    effect: Option<Field>,
    entry: &Entry,
) -> Result<Fit, LoadError>
    ensures { Answers (λ fit. fit) result
        (fit_of dir.now effect (prefix.now ++ (map_entry_of entry.now).name) (map_entry_of entry.now) K.Dirs) }
{
    let items = list(alloc, prefix, entry)?;
    let dirs = dirs_of(alloc, dir, effect, items)?;
    Ok(Fit::Dirs(listed(alloc, entry.at, dirs)?))
}

fn multi_fit(alloc: Global, prefix: &str, entry: &Entry) -> Result<Fit, LoadError>
    ensures { Answers (λ fit. fit) result
        (fit_of [] None (prefix.now ++ (map_entry_of entry.now).name) (map_entry_of entry.now) K.Multi) }
{
    let word = word(alloc, prefix, entry)?;
    multi(alloc, prefix, &entry.name, entry.at, word)
}

fn level_fit(alloc: Global, prefix: &str, entry: &Entry) -> Result<Fit, LoadError>
    ensures { Answers (λ fit. fit) result
        (fit_of [] None (prefix.now ++ (map_entry_of entry.now).name) (map_entry_of entry.now) K.Level) }
{
    let word = word(alloc, prefix, entry)?;
    level(alloc, prefix, &entry.name, entry.at, word)
}

fn no_fit(alloc: Global, prefix: &str, entry: &Entry) -> Result<Fit, LoadError>
    ensures { Answers (λ fit. fit) result
        (fit_of [] None (prefix.now ++ (map_entry_of entry.now).name) (map_entry_of entry.now) K.Words) }
{
    list(alloc, prefix, entry)?;
    Ok(Fit::Unset)
}

fn group_fit(alloc: Global, prefix: &str, entry: &Entry) -> Result<Fit, LoadError>
    ensures { Answers (λ fit. fit) result
        (fit_of [] None (prefix.now ++ (map_entry_of entry.now).name) (map_entry_of entry.now) K.Group) }
{
    entries(alloc, prefix, entry)?;
    Ok(Fit::Unset)
}

/// What an entry's value stands for under a property.
pub fn fitted(
    alloc: Global,
    dir: &Path,
    prefix: &str,
    row: Row,
    entry: &Entry,
) -> Result<Fit, LoadError>
    ensures { Answers (λ fit. fit) result
        (fit_of dir.now row.effect (prefix.now ++ (map_entry_of entry.now).name) (map_entry_of entry.now) row.kind) }
{
    match row.kind {
        PropKind::Bool => truth_fit(alloc, prefix, entry),
        PropKind::Word => word_fit(alloc, prefix, entry),
        PropKind::Words => no_fit(alloc, prefix, entry),
        PropKind::Flags => flags_fit(alloc, prefix, entry),
        PropKind::Names => names_fit(alloc, prefix, entry),
        PropKind::Paths => sources_fit(alloc, dir, prefix, entry),
        PropKind::Dirs => dirs_fit(alloc, dir, prefix, row.effect, entry),
        PropKind::Multi => multi_fit(alloc, prefix, entry),
        PropKind::Level => level_fit(alloc, prefix, entry),
        PropKind::Group => group_fit(alloc, prefix, entry),
    }
}

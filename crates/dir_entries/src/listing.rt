ghost use Rattle.std.specs.Prelude.{◌≡◌, ◌≢◌, ◌++◌, ◌∷◌, [], false, ℕ, List, IfOk, OnOk, MatchOption, map};
ghost use Rattle.dir_entries.specs.Below.{has_slash, LiesBelow};
ghost use Rattle.dir_entries.specs.Entries.{AreEntries, Begins, EntryMeans, GiveEntries};

use crate::DirEntry;
use bp_faults::{OutOfMemory, Text};
use std::alloc::Global;

// What a text has behind another with which it begins.
fn behind<'a>(front: &str, text: &'a str) -> Option<&'a str>
    ensures { MatchOption result ((rest : List ℕ) → text.now ≢ front.now ++ rest)
        (λ rest. text.now ≡ front.now ++ rest.now) }
{
    text.strip_prefix(front)
}

// What a path has behind a text and a slash.
fn behind_slash<'a>(dir: &str, path: &'a str) -> Option<&'a str>
    ensures { MatchOption result ((rest : List ℕ) → path.now ≢ dir.now ++ 47 ∷ rest)
        (λ rest. path.now ≡ dir.now ++ 47 ∷ rest.now) }
{
    behind("/", behind(dir, path)?)
}

/// What a path has behind a directory, if it lies below it.
pub fn rest_below<'a>(dir: &str, path: &'a str) -> Option<&'a str>
    ensures { MatchOption result ((rest : List ℕ) → LiesBelow dir.now path.now rest → ⊥)
        (λ rest. LiesBelow dir.now path.now rest.now) }
{
    if dir.is_empty() {
        return if path.is_empty() { None } else { Some(path) };
    }
    behind_slash(dir, path)
}

// The first name of a text, and whether a slash follows it.
fn first_name(text: &str) -> (&str, bool)
    ensures whole { has_slash result.0.now ≡ false }
    ensures begins { Begins text.now result.0.now result.1 }
{
    match text.split_once('/') {
        Some((name, _)) => (name, true),
        None => (text, false),
    }
}

// The entry with which what a path has behind a directory begins.
fn entry_of(alloc: Global, rest: &str) -> Result<DirEntry, OutOfMemory>
    ensures { IfOk result (EntryMeans rest.now) }
{
    let (name, dir) = first_name(rest);
    let name = Text::from_str(alloc, name)?;
    Ok(DirEntry { name, dir })
}

// The entry of one more path, where that lies below the directory.
fn add(alloc: Global, entries: &mut Vec<DirEntry>, dir: &str, path: &str) -> Result<(), OutOfMemory>
    ensures { OnOk result ((held : List (List ℕ)) → GiveEntries held dir.now entries.old.items
        → GiveEntries (held ++ path.now ∷ []) dir.now entries.new.items) }
{
    match rest_below(dir, path) {
        Some(rest) => {
            entries.push(entry_of(alloc, rest)?)?;
            Ok(())
        }
        None => Ok(()),
    }
}

// What these paths give the directory, in their order.
fn given(alloc: Global, dir: &str, paths: &[&str]) -> Result<Vec<DirEntry>, OutOfMemory>
    ensures { IfOk result (λ entries. GiveEntries (map (λ path. path.now) paths.now) dir.now entries.items) }
{
    let mut entries = Vec::new(alloc);
    for path in paths {
        add(alloc, &mut entries, dir, path)?;
    }
    Ok(entries)
}

// The same entries in their order, each once.
fn in_order(mut entries: Vec<DirEntry>) -> Result<Vec<DirEntry>, OutOfMemory>
    ensures { IfOk result (λ sorted. (held : List (List ℕ)) (dir : List ℕ)
        → GiveEntries held dir entries.items → AreEntries held dir sorted.items) }
{
    entries.sort()?;
    entries.dedup();
    Ok(entries)
}

/// The entries that these held paths give a directory. It takes a place in memory for each path below it.
pub fn entries_of(alloc: Global, dir: &str, paths: &[&str]) -> Result<Vec<DirEntry>, OutOfMemory>
    ensures { IfOk result (λ entries. AreEntries (map (λ path. path.now) paths.now) dir.now entries.items) }
{
    in_order(given(alloc, dir, paths)?)
}

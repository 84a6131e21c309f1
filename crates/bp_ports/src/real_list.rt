ghost use Rattle.std.specs.Prelude.{◌≡◌, ◌≤◌, ◌++◌, ◌∷◌, [], IfOk, OnOk, length};
ghost use Rattle.bp_ports.specs.FailedLists.{entry_failure, dir_failure};

use crate::ListError;
use bp_faults::{OutOfMemory, Text};
use dir_entries::DirEntry;
use std::alloc::{Alloc, Allocator, Global};
use std::io::ErrorKind;
use std::rt::Files;
use std::{fs, io};

// Why an entry isn't read, by the kind of the system's error.
fn entry_error(kind: ErrorKind) -> ListError
    ensures { result ≡ entry_failure kind }
{
    match kind {
        ErrorKind::OutOfMemory => ListError::OutOfMemory,
        _ => ListError::Failed,
    }
}

// Why a directory isn't opened, by the kind of the system's error.
fn dir_error(kind: ErrorKind) -> ListError
    ensures { result ≡ dir_failure kind }
{
    match kind {
        ErrorKind::NotFound => ListError::Absent,
        ErrorKind::NotADirectory => ListError::Absent,
        _ => entry_error(kind),
    }
}

// What the system has as an entry. A link is a file, whatever it leads to.
fn real_entry<R: Files + Clone + Drop, A: Allocator + Clone + Drop>(
    alloc: Global,
    entry: &fs::DirEntry<R, A>,
) -> Result<DirEntry, ListError> {
    match entry.file_type() {
        Ok(kind) => Ok(DirEntry {
            name: Text::from_str(alloc, entry.file_name())?,
            dir: kind.is_dir(),
        }),
        Err(error) => Err(entry_error(error.kind())),
    }
}

// One entry more.
fn add(entries: &mut Vec<DirEntry>, entry: DirEntry) -> Result<(), OutOfMemory>
    ensures { OnOk result (entries.new.items ≡ entries.old.items ++ entry ∷ []) }
{
    entries.push(entry)?;
    Ok(())
}

// The same entries in their order.
fn sorted(mut entries: Vec<DirEntry>) -> Result<Vec<DirEntry>, OutOfMemory>
    ensures { IfOk result (λ sorted. length sorted.items ≡ length entries.items) }
{
    entries.sort()?;
    Ok(entries)
}

// The entries that the system has, in its order, at most so many. No more than one beyond these is read.
fn read_entries<R: Files + Clone + Drop, A: Allocator + Clone + Drop>(
    alloc: Global,
    listing: fs::ReadDir<R, A>,
    limit: u32,
) -> Result<Vec<DirEntry>, ListError>
    ensures bound { IfOk result (λ entries. length entries.items ≤ limit) }
{
    let mut entries = Vec::new(alloc);
    for entry in listing {
        match entry {
            Err(error) => return Err(entry_error(error.kind())),
            Ok(_) if entries.len() >= limit as usize => return Err(ListError::TooMany),
            Ok(entry) => add(&mut entries, real_entry(alloc, &entry)?)?,
        }
    }
    Ok(entries)
}

/// The entries of a real directory, at most so many. The root, as the empty path, is the directory where the program
/// runs.
pub fn list_dir<R: Files + Alloc + Clone + Drop>(
    rt: &R,
    alloc: Global,
    dir: &str,
    limit: u32,
) -> Result<Vec<DirEntry>, ListError>
    ensures bound { IfOk result (λ entries. length entries.items ≤ limit) }
{
    let path = if dir.is_empty() { "." } else { dir };
    match fs::read_dir(rt, path) {
        Ok(listing) => Ok(sorted(read_entries(alloc, listing, limit)?)?),
        Err(error) => Err(dir_error(error.kind())),
    }
}

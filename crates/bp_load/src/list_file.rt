ghost use Rattle.std.specs.Prelude.{◌≡◌, ◌≤◌, ◌<◌, ◌^◌, ◌==◌, not, length, codes, IfOk, OnOk, Some, None};
ghost use Rattle.std.specs.Prelude.{if◌then◌else◌};
ghost use Rattle.std.specs.BTreeMap.{IsOrdered, values};
ghost use Rattle.std.specs.List.{list_all, list_any};
ghost use Rattle.std.specs.Str.{bytes_eq};
ghost use Rattle.std.specs.Str.Lines.{lines};
ghost use Rattle.bp_faults.specs.Answers.{Tells, Leaves};
ghost use Rattle.bp_faults.specs.Characters.{is_barred_in_paths};
ghost use Rattle.bp_faults.specs.Faults.{fault_on};
ghost use Rattle.bp_faults.specs.declared.kind.FaultKind.TheVariants.{BadList as BadListAs};
ghost use Rattle.bp_faults.specs.declared.limits.TheConstants.{LARGEST_LIST_FILE};
ghost use Rattle.property_values.specs.Paths.{parts};
ghost use Rattle.bp_load.specs.Directories.{directory_cmp};
ghost use Rattle.bp_load.specs.ListFile.{is_blank as blank, without_dots, file_name, is_listed, line_place};
ghost use Rattle.bp_load.specs.ListFile.{LinesMean, ListMeans};
ghost use Rattle.bp_load.specs.Listing.{with_line, with_path, counted_entries};

use crate::LoadError;
use crate::directory::Directory;
use crate::not_utf8::not_utf8;
use bp_faults::limits::MOST_FILES;
use bp_faults::{Fault, FaultKind, OutOfMemory, Path, Place, Text, is_barred_in_paths};
use std::alloc::Global;
use std::collections::BTreeMap;

fn is_blank(line: &str) -> bool
    ensures { result ≡ blank line.now }
{
    line.as_bytes()
        .iter()
        .all(|byte| *byte == b' ' || *byte == b'\t')
}

fn undotted(line: &str) -> &str
    ensures { result.now ≡ without_dots line.now }
{
    let mut path = line;
    while let Some(rest) = path.strip_prefix("./") {
        path = rest;
    }
    path
}

fn has_barred(path: &str) -> bool
    ensures { result ≡ list_any is_barred_in_paths path.now }
{
    path.as_bytes()
        .iter()
        .any(|byte| is_barred_in_paths(char::from(*byte)))
}

fn file_name(path: &str) -> &str
    ensures { result.now ≡ file_name path.now }
{
    let mut name = "";
    for part in path.split('/') {
        name = part;
    }
    name
}

/// The path of a text that may be listed.
fn listed_path(alloc: Global, path: &str) -> Result<Option<Path>, OutOfMemory>
    ensures { IfOk result (λ listed. listed ≡ (if is_listed path.now then Some path.now else None)) }
{
    if has_barred(path) || file_name(path) != "Android.bp" {
        return Ok(None);
    }
    Ok(Path::new(Text::from_str(alloc, path)?))
}

fn line_place(at: u32) -> Place
    requires { at < 2 ^ 31 }
    ensures { result ≡ line_place at }
{
    Place {
        file: 0,
        line: at + 1,
        col: 1,
    }
}

/// Takes a path, unless it would be one too many.
fn take_path(
    alloc: Global,
    files: &mut BTreeMap<Directory, Path>,
    path: Path,
    at: u32,
) -> Result<(), LoadError>
    requires { at < 2 ^ 31 }
    ensures taken { Leaves (λ files. files.entries) files.new result (with_path at files.old.entries path) }
    ensures order { OnOk result (IsOrdered directory_cmp files.new) }
{
    files.insert(Directory::of(alloc, &path)?, path)?;
    if files.len() > MOST_FILES {
        let limit = Text::from_str(alloc, "files")?;
        return Err(LoadError::Bad(Fault::on(alloc, FaultKind::TooMany, line_place(at), limit)));
    }
    Ok(())
}

/// Takes what a line names: nothing where it is blank, else a path, which may be listed.
fn take_line(
    alloc: Global,
    files: &mut BTreeMap<Directory, Path>,
    line: &str,
    at: u32,
) -> Result<(), LoadError>
    requires { at < 2 ^ 31 }
    ensures taken { Leaves (λ files. files.entries) files.new result (with_line at files.old.entries line.now) }
    ensures order { IsOrdered directory_cmp files.old → OnOk result (IsOrdered directory_cmp files.new) }
{
    if is_blank(line) {
        return Ok(());
    }
    match listed_path(alloc, undotted(line))? {
        Some(path) => take_path(alloc, files, path, at),
        None => {
            let line = Text::from_str(alloc, line)?;
            Err(LoadError::Bad(Fault::on(alloc, FaultKind::BadList, line_place(at), line)))
        }
    }
}

/// The files that lines list, each under the components of its directory.
fn files_of(alloc: Global, text: &str) -> Result<BTreeMap<Directory, Path>, LoadError>
    requires { length text.now ≤ LARGEST_LIST_FILE }
    ensures { Tells (λ files. values files) (LinesMean (lines text.now)) result }
{
    let mut files = BTreeMap::new(alloc);
    let mut at = 0;
    for line in text.lines() {
        take_line(alloc, &mut files, line, at)?;
        at += 1;
    }
    Ok(files)
}

/// The paths of a list file, which has at most 2^22 bytes, in file order.
///
/// The fault of a list that has none is *not UTF-8*, else that of the first line that is wrong: *bad path
/// in list* at a line that names no Android.bp file, and *too many* `files` at the line that names one file
/// more than 16,384.
pub fn file_list(alloc: Global, bytes: &[u8]) -> Result<Vec<Path>, LoadError>
    requires { length bytes.now ≤ LARGEST_LIST_FILE }
    ensures { Tells (λ paths. paths.items) (ListMeans bytes.now) result }
{
    match str::from_utf8(bytes) {
        Ok(text) => Ok(files_of(alloc, text)?.into_values().collect(alloc)?),
        Err(error) => Err(LoadError::Bad(not_utf8(alloc, bytes, error.valid_up_to(), 0))),
    }
}

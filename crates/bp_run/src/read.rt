ghost use Rattle.std.specs.Prelude.{◌≡◌, ◌≤◌, ◌+◌, ◌∷◌, [], ◌++◌, IfOk, OnOk, IfSome, length, map};
ghost use Rattle.std.specs.List.{All};
ghost use Rattle.std.specs.FinMap.{get};
ghost use Rattle.bp_faults.specs.Faults.{fault_at, file_start};
ghost use Rattle.bp_faults.specs.declared.limits.TheConstants.{MOST_FILES};
ghost use Rattle.bp_load.specs.Directories.{AreInFileOrder};
ghost use Rattle.bp_load.specs.ListFile.{ListMeans};
ghost use Rattle.bp_load.specs.Trees.{sources_given};
ghost use Rattle.bp_run.specs.Tree.{read_of, counted_bytes, file_bytes, sources_of, ListFileMeans, CannotReadOf};
ghost use Rattle.bp_run.specs.Steps.{GivesOrStops, GivesOrRunsOut, Exactly, ReadCause};

use crate::Stop;
use bp_faults::limits::{LARGEST_FILE, LARGEST_LIST_FILE, LARGEST_TREE};
use bp_faults::{Fault, FaultKind, OutOfMemory, Path, Place, Text};
use bp_load::file_list;
use bp_ports::{ReadError, Store};
use std::alloc::Global;

/// A fault of a file as a whole.
pub fn file_fault(alloc: Global, kind: FaultKind, file: u32) -> Stop
    ensures { result ≡ Stop.Fault (fault_at kind (file_start file)) }
{
    Stop::Fault(Fault::at(alloc, kind, Place::start(file)))
}

/// Reads the file of a number. The path is copied first, so that a failed read can be reported.
pub fn read_file<S: Store>(
    alloc: Global,
    store: &mut S,
    path: &Text,
    file: u32,
    limit: u64,
) -> Result<Vec<u8>, Stop>
    ensures gives { IfSome (S.files store.old) (λ files. GivesOrStops (λ bytes. bytes.items)
        (Exactly (read_of file limit (get files path.now))) (λ unread. unread ≡ path.now) result) }
    ensures bound { IfOk result (λ bytes. length bytes.items ≤ limit) }
    ensures cause { ReadCause (S.read_faults store.old) (S.read_faults store.new) result }
    ensures files { S.files store.new ≡ S.files store.old }
    ensures writes { S.write_faults store.new ≡ S.write_faults store.old }
{
    let unread = path.copy(alloc)?;
    match store.read(alloc, path, limit) {
        Ok(bytes) => Ok(bytes),
        Err(ReadError::Absent) => Err(file_fault(alloc, FaultKind::NoFile, file)),
        Err(ReadError::TooLarge) => Err(file_fault(alloc, FaultKind::FileTooLarge, file)),
        Err(ReadError::Failed) => Err(Stop::Read(unread)),
        Err(ReadError::OutOfMemory) => Err(Stop::OutOfMemory),
    }
}

// The paths that the bytes of a list name.
fn list_paths(alloc: Global, bytes: &[u8]) -> Result<Vec<Path>, Stop>
    requires { length bytes.now ≤ LARGEST_LIST_FILE }
    ensures gives { GivesOrRunsOut (λ paths. paths.items) (ListMeans bytes.now) result }
    ensures few { IfOk result (λ paths. length paths.items ≤ MOST_FILES) }
    ensures order { IfOk result (λ paths. AreInFileOrder paths.items) }
{
    Ok(file_list(alloc, bytes)?)
}

/// The paths that the list names, in file order.
pub fn read_list<S: Store>(alloc: Global, list: &Text, store: &mut S) -> Result<Vec<Path>, Stop>
    ensures gives { IfSome (S.files store.old) (λ files. GivesOrStops (λ paths. paths.items)
        (ListFileMeans list.now files) (λ unread. unread ≡ list.now) result) }
    ensures few { IfOk result (λ paths. length paths.items ≤ MOST_FILES) }
    ensures order { IfOk result (λ paths. AreInFileOrder paths.items) }
    ensures cause { ReadCause (S.read_faults store.old) (S.read_faults store.new) result }
    ensures files { S.files store.new ≡ S.files store.old }
    ensures writes { S.write_faults store.new ≡ S.write_faults store.old }
{
    let bytes = read_file(alloc, store, list, 0, LARGEST_LIST_FILE)?;
    list_paths(alloc, &bytes)
}

// The bytes of a file are counted behind those of that size.
fn count_bytes(alloc: Global, bytes: Vec<u8>, number: u32, size: usize) -> Result<Vec<u8>, Stop>
    requires size { size ≤ LARGEST_TREE }
    requires short { length bytes.items ≤ LARGEST_FILE }
    ensures gives { GivesOrRunsOut (λ bytes. bytes.items) (Exactly (counted_bytes number size bytes.items)) result }
    ensures same { IfOk result (λ counted. counted.items ≡ bytes.items) }
    ensures bound { IfOk result (λ bytes. size + length bytes.items ≤ LARGEST_TREE) }
{
    if size + bytes.len() <= LARGEST_TREE {
        return Ok(bytes);
    }
    let limit = Text::from_str(alloc, "bytes")?;
    Err(Stop::Fault(Fault::on(alloc, FaultKind::TooMany, Place::start(number), limit)))
}

// The bytes of an Android.bp file, behind others of that size.
fn read_source<S: Store>(
    alloc: Global,
    store: &mut S,
    path: &Path,
    number: u32,
    size: usize,
) -> Result<Vec<u8>, Stop>
    requires { size ≤ LARGEST_TREE }
    ensures gives { IfSome (S.files store.old) (λ files. GivesOrStops (λ bytes. bytes.items)
        (Exactly (file_bytes files number size path.now)) (λ unread. unread ≡ path.now) result) }
    ensures short { IfOk result (λ bytes. length bytes.items ≤ LARGEST_FILE) }
    ensures bound { IfOk result (λ bytes. size + length bytes.items ≤ LARGEST_TREE) }
    ensures cause { ReadCause (S.read_faults store.old) (S.read_faults store.new) result }
    ensures files { S.files store.new ≡ S.files store.old }
    ensures writes { S.write_faults store.new ≡ S.write_faults store.old }
{
    let bytes = read_file(alloc, store, path.as_text(), number, LARGEST_FILE)?;
    count_bytes(alloc, bytes, number, size)
}

// Puts a file behind those that are read.
fn keep(files: &mut Vec<(Path, Vec<u8>)>, path: Path, bytes: Vec<u8>) -> Result<(), OutOfMemory>
    ensures { OnOk result (files.new.items ≡ files.old.items ++ (path, bytes) ∷ []) }
{
    files.push((path, bytes))?;
    Ok(())
}

/// The Android.bp files of some paths, in turn. They are numbered from 1.
pub fn read_files<S: Store>(
    alloc: Global,
    paths: &[Path],
    store: &mut S,
) -> Result<Vec<(Path, Vec<u8>)>, Stop>
    requires { length paths.now ≤ MOST_FILES }
    ensures gives { IfSome (S.files store.old) (λ files. GivesOrStops (λ read. sources_given read.items)
        (Exactly (sources_of files paths.now)) (CannotReadOf files paths.now) result) }
    ensures paths { IfOk result (λ read. map (λ f. f.0) (sources_given read.items) ≡ paths.now) }
    ensures short { IfOk result (λ read. All (λ f. length f.1 ≤ LARGEST_FILE) (sources_given read.items)) }
    ensures cause { ReadCause (S.read_faults store.old) (S.read_faults store.new) result }
    ensures files { S.files store.new ≡ S.files store.old }
    ensures writes { S.write_faults store.new ≡ S.write_faults store.old }
{
    let mut read = Vec::new(alloc);
    let mut number = 1;
    let mut size = 0;
    'paths: for path in paths {
        let bytes = read_source(alloc, store, path, number, size)?;
        size += bytes.len();
        keep(&mut read, path.copy(alloc)?, bytes)?;
        number += 1;
    }
    Ok(read)
}

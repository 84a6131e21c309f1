ghost use Rattle.std.specs.Prelude.{◌≡◌, ℕ, ◌+◌, ◌≤◌, ◌<◌, List, map, length, Some, IfOk, OnOk, OnErr, IsErr, IsErrOf};
ghost use Rattle.std.specs.Prelude.{IsSomeAnd, ◌↔◌, ◌⊎◌};
ghost use Rattle.std.specs.Option.{option_copied};
ghost use Rattle.std.specs.Ordering.{nat_cmp};
ghost use Rattle.std.specs.Cmp.Lexicographic.{slice_cmp};
ghost use Rattle.std.specs.FinMap.{find};
ghost use Rattle.bp_ports.specs.Files.{Files, ReadGives};
ghost use Rattle.bp_ports.specs.Lists.{ListGives, ArePaths};
ghost use Rattle.bp_ports.specs.MemStore.{entries_of};

use crate::calls::Calls;
use crate::writes::{Writes, is_same};
use crate::{Failed, ListError, ReadError, Store};
use bp_faults::{OutOfMemory, Text};
use dir_entries::laws::paths_give_entries;
use dir_entries::{DirEntry, entries_of};
use std::alloc::Global;

// A copy of what a path holds.
fn copy_of(alloc: Global, held: Option<&[u8]>, limit: u64) -> Result<Vec<u8>, ReadError>
    ensures gives { ReadGives (option_copied held.entry) limit result }
    ensures bound { IfOk result (λ bytes. length bytes.items ≤ limit) }
    ensures not_failed { ¬ IsErrOf result ReadError.Failed }
    ensures memory { IsErrOf result ReadError.OutOfMemory
        → IsSomeAnd (option_copied held.entry) (λ bytes. length bytes ≤ limit) }
{
    match held {
        None => Err(ReadError::Absent),
        Some(bytes) if bytes.len() as u64 > limit => Err(ReadError::TooLarge),
        Some(bytes) => match bytes.to_vec(alloc) {
            Ok(copy) => Ok(copy),
            Err(_) => Err(ReadError::OutOfMemory),
        },
    }
}

// The entries that these held paths give a directory, at most so many.
fn listed(alloc: Global, paths: &[&str], dir: &str, limit: u32) -> Result<Vec<DirEntry>, ListError>
    ensures gives { (files : Files) → ArePaths (map (λ path. path.now) paths.now) files
        → ListGives files dir.now limit result }
    ensures bound { IfOk result (λ entries. length entries.items ≤ limit) }
    ensures not_failed { ¬ IsErrOf result ListError.Failed }
{
    paths_give_entries();
    let entries = entries_of(alloc, dir, paths)?;
    if entries.is_empty() && !dir.is_empty() {
        return Err(ListError::Absent);
    }
    if entries.len() > limit as usize {
        return Err(ListError::TooMany);
    }
    Ok(entries)
}

/// Files in memory, whose calls fail where they are told to.
#[derive(Drop)]
pub struct MemStore {
    files: Vec<(Text, Vec<u8>)>,
    writes: Writes,
    calls: Calls,
    read_faults: u64,
    write_faults: u64,
}

// What the path was given.
fn given<'a>(files: &'a [(Text, Vec<u8>)], path: &str) -> Option<&'a [u8]>
    ensures { option_copied result ≡ find (slice_cmp nat_cmp) path.now (entries_of files.now) }
{
    for file in files {
        if is_same(path, file.0.as_str().as_bytes()) {
            return Some(file.1.as_slice());
        }
    }
    None
}

// The paths that were given.
fn given_paths(alloc: Global, files: &[(Text, Vec<u8>)]) -> Result<Vec<&str>, OutOfMemory>
    ensures { IfOk result (λ paths. map (λ path. path.now) paths.items ≡ map (λ file. file.0) files.now) }
{
    let mut paths = Vec::new(alloc);
    for file in files {
        paths.push(file.0.as_str())?;
    }
    Ok(paths)
}

impl MemStore {
    ghost use Rattle.std.specs.FinMap.{get};
    ghost use Rattle.bp_ports.specs.MemStore.{given_files, held_files, calls_so_far, BeginsWith};

    /// A store that holds these files, of two with one path the first. The room for writes is taken
    /// now; the calls that fail are counted from 1, reads and writes together.
    pub fn new(
        alloc: Global,
        files: Vec<(Text, Vec<u8>)>,
        room: u32,
        failing: Vec<u32>,
    ) -> Result<MemStore, OutOfMemory>
        ensures { IfOk result (BeginsWith (given_files files.items) room failing) }
    {
        Ok(MemStore {
            files,
            writes: Writes::new(alloc, room)?,
            calls: Calls::new(failing),
            read_faults: 0,
            write_faults: 0,
        })
    }

    /// How many calls there were, reads and writes together.
    pub fn calls(&self) -> u32
        ensures { result ≡ calls_so_far self.now }
    {
        self.calls.count
    }

    /// What the path holds.
    pub fn held(&self, path: &str) -> Option<&[u8]>
        ensures { option_copied result ≡ get (held_files self.now) path.now }
    {
        self.writes.after(path, given(&self.files, path))
    }

    // The paths that are held, in any order, maybe some more than once.
    fn paths(&self, alloc: Global) -> Result<Vec<&str>, OutOfMemory>
        ensures { IfOk result (λ paths. ArePaths (map (λ path. path.now) paths.items) (held_files self.now)) }
    {
        self.writes.after_paths(given_paths(alloc, &self.files)?)
    }
}

impl Store for MemStore {
    ghost use Rattle.std.specs.FinMap.{get};
    ghost use Rattle.bp_ports.specs.Calls.{FailsNext, one_later};
    ghost use Rattle.bp_ports.specs.Causes.{HasCause, HasCauseAt, count_after, read_count_after};
    ghost use Rattle.bp_ports.specs.Causes.{list_count_after};
    ghost use Rattle.bp_ports.specs.Files.{WriteLeaves};
    ghost use Rattle.bp_ports.specs.MemStore.{held_files, room_left, calls_of, failed_reads, failed_writes};
    ghost use Rattle.bp_ports.specs.Written.{need_of};

    ghost files = { λ s. Some (held_files s) };

    ghost read_faults = { λ s. failed_reads s };

    ghost write_faults = { λ s. failed_writes s };

    fn read(&mut self, alloc: Global, path: &Text, limit: u64) -> Result<Vec<u8>, ReadError>
        ensures gives { ReadGives (get (held_files self.old) path.now) limit result }
        ensures bound { IfOk result (λ bytes. length bytes.items ≤ limit) }
        ensures files { held_files self.new ≡ held_files self.old }
        ensures cause { HasCauseAt ReadError.Failed (failed_reads self.old) (failed_reads self.new) result }
        ensures writes { failed_writes self.new ≡ failed_writes self.old }

        // The call fails exactly where it is listed, and wants memory only for what it gives.
        ensures exactly { IsErrOf result ReadError.Failed ↔ FailsNext (calls_of self.old) }
        ensures memory { IsErrOf result ReadError.OutOfMemory
            → IsSomeAnd (get (held_files self.old) path.now) (λ bytes. length bytes ≤ limit) }
        ensures counted { calls_of self.new ≡ one_later (calls_of self.old) }
        ensures raised { failed_reads self.new ≡ read_count_after result (failed_reads self.old) }
        ensures room { room_left self.new ≡ room_left self.old }
    {
        if self.calls.fails() {
            self.read_faults = self.read_faults.saturating_add(1);
            return Err(ReadError::Failed);
        }
        copy_of(alloc, self.held(path.as_str()), limit)
    }

    fn write(&mut self, path: &Text, bytes: &[u8]) -> Result<(), Failed>
        ensures files { WriteLeaves path.now bytes.now result (held_files self.old) (held_files self.new) }
        ensures cause { HasCause (failed_writes self.old) (failed_writes self.new) result }
        ensures reads { failed_reads self.new ≡ failed_reads self.old }

        // The call fails exactly where it is listed or the room is wanting, and changes nothing then.
        ensures exactly { IsErr result ↔ (FailsNext (calls_of self.old)
            ⊎ room_left self.old < need_of path.now bytes.now) }
        ensures counted { calls_of self.new ≡ one_later (calls_of self.old) }
        ensures raised { failed_writes self.new ≡ count_after result (failed_writes self.old) }
        ensures spent { OnOk result (room_left self.new + need_of path.now bytes.now ≡ room_left self.old) }
        ensures untouched { OnErr result (held_files self.new ≡ held_files self.old) }
        ensures saved { OnErr result (room_left self.new ≡ room_left self.old) }
    {
        let path = path.as_str().as_bytes();
        if !self.calls.fails() {
            if let Some(need) = self.writes.need(path, bytes) {
                self.writes.add(path, bytes, need);
                return Ok(());
            }
        }
        self.write_faults = self.write_faults.saturating_add(1);
        Err(Failed)
    }

    fn list(&mut self, alloc: Global, dir: &Text, limit: u32) -> Result<Vec<DirEntry>, ListError>
        ensures gives { ListGives (held_files self.old) dir.now limit result }
        ensures bound { IfOk result (λ entries. length entries.items ≤ limit) }
        ensures files { held_files self.new ≡ held_files self.old }
        ensures cause { HasCauseAt ListError.Failed (failed_reads self.old) (failed_reads self.new) result }
        ensures writes { failed_writes self.new ≡ failed_writes self.old }

        // The call fails exactly where it is listed.
        ensures exactly { IsErrOf result ListError.Failed ↔ FailsNext (calls_of self.old) }
        ensures counted { calls_of self.new ≡ one_later (calls_of self.old) }
        ensures raised { failed_reads self.new ≡ list_count_after result (failed_reads self.old) }
        ensures room { room_left self.new ≡ room_left self.old }
    {
        if self.calls.fails() {
            self.read_faults = self.read_faults.saturating_add(1);
            return Err(ListError::Failed);
        }
        listed(alloc, &self.paths(alloc)?, dir.as_str(), limit)
    }
}

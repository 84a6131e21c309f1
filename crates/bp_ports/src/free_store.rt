ghost use Rattle.std.specs.Prelude.{◌≡◌, ℕ, ◌+◌, ◌≤◌, ◌<◌, [], length, Some, IfOk, IsOk, IsErrOf, IfSome, IsSome};
ghost use Rattle.std.specs.Prelude.{IsNone, IsSomeAnd, IsTrue, ◌↔◌};
ghost use Rattle.std.specs.Option.{option_copied, option_map};
ghost use Rattle.bp_ports.specs.MemStore.{calls_of};

use crate::{Failed, ListError, MemStore, ReadError, Store};
use bp_faults::{OutOfMemory, Text};
use dir_entries::DirEntry;
use std::alloc::Global;

/// Files in memory, without failures: a write that needs more room than is left ends the telling.
#[derive(Drop)]
pub struct FreeStore {
    store: MemStore,
    told: bool,
    ghost no_failures: { (calls_of store).failing.items ≡ [] },
}

impl FreeStore {
    ghost use Rattle.std.specs.FinMap.{get};
    ghost use Rattle.bp_ports.specs.MemStore.{given_files};
    ghost use Rattle.bp_ports.specs.FreeStore.{told_files, calls_so_far, BeginsWith};

    /// A store that holds these files, of two with one path the first. The room for writes is taken
    /// now.
    pub fn new(
        alloc: Global,
        files: Vec<(Text, Vec<u8>)>,
        room: u32,
    ) -> Result<FreeStore, OutOfMemory>
        ensures { IfOk result (BeginsWith (given_files files.items) room) }
    {
        Ok(FreeStore {
            store: MemStore::new(alloc, files, room, Vec::new(alloc))?,
            told: true,
        })
    }

    /// How many calls there were, reads and writes together.
    pub fn calls(&self) -> u32
        ensures { result ≡ calls_so_far self.now }
    {
        self.store.calls()
    }

    /// Whether the files are still told.
    pub fn tells(&self) -> bool
        ensures { IsTrue result ↔ IsSome (told_files self.now) }
    {
        self.told
    }

    /// What the path holds. Nothing is said of it once the files are told no more.
    pub fn held(&self, path: &str) -> Option<&[u8]>
        ensures { IfSome (told_files self.now) (λ files. option_copied result ≡ get files path.now) }
    {
        self.store.held(path)
    }
}

impl Store for FreeStore {
    ghost use Rattle.std.specs.FinMap.{get, insert};
    ghost use Rattle.bp_ports.specs.Calls.{next_number};
    ghost use Rattle.bp_ports.specs.Causes.{HasCause, HasCauseAt};
    ghost use Rattle.bp_ports.specs.Files.{WhereTold, ReadGives, WriteLeaves};
    ghost use Rattle.bp_ports.specs.Lists.{ListGives};
    ghost use Rattle.bp_ports.specs.FreeStore.{told_files, room_for_writes, calls_so_far};
    ghost use Rattle.bp_ports.specs.Written.{need_of};

    ghost files = { λ s. told_files s };

    ghost read_faults = { λ s. 0 };

    ghost write_faults = { λ s. 0 };

    fn read(&mut self, alloc: Global, path: &Text, limit: u64) -> Result<Vec<u8>, ReadError>
        ensures gives { IfSome (told_files self.old) (λ held. ReadGives (get held path.now) limit result) }
        ensures bound { IfOk result (λ bytes. length bytes.items ≤ limit) }
        ensures files { told_files self.new ≡ told_files self.old }
        ensures cause { HasCauseAt ReadError.Failed 0 0 result }

        // No call fails, and memory is wanted only for what is given.
        ensures not_failed { ¬ IsErrOf result ReadError.Failed }
        ensures memory { IsErrOf result ReadError.OutOfMemory
            → IfSome (told_files self.old) (λ held. IsSomeAnd (get held path.now) (λ bytes. length bytes ≤ limit)) }
        ensures counted { calls_so_far self.new ≡ next_number (calls_so_far self.old) }
        ensures room { room_for_writes self.new ≡ room_for_writes self.old }
    {
        self.store.read(alloc, path, limit)
    }

    fn write(&mut self, path: &Text, bytes: &[u8]) -> Result<(), Failed>
        ensures files { WhereTold (WriteLeaves path.now bytes.now result) (told_files self.old) (told_files self.new) }
        ensures cause { HasCause 0 0 result }

        // No call fails. The telling ends exactly where the room is wanting.
        ensures ok { IsOk result }
        ensures kept { need_of path.now bytes.now ≤ room_for_writes self.old
            → told_files self.new ≡ option_map (λ files. insert files path.now bytes.now) (told_files self.old) }
        ensures ended { room_for_writes self.old < need_of path.now bytes.now → IsNone (told_files self.new) }
        ensures spent { need_of path.now bytes.now ≤ room_for_writes self.old
            → room_for_writes self.new + need_of path.now bytes.now ≡ room_for_writes self.old }
        ensures saved { room_for_writes self.old < need_of path.now bytes.now
            → room_for_writes self.new ≡ room_for_writes self.old }
        ensures counted { calls_so_far self.new ≡ next_number (calls_so_far self.old) }
    {
        if self.store.write(path, bytes).is_err() {
            self.told = false;
        }
        Ok(())
    }

    fn list(&mut self, alloc: Global, dir: &Text, limit: u32) -> Result<Vec<DirEntry>, ListError>
        ensures gives { IfSome (told_files self.old) (λ held. ListGives held dir.now limit result) }
        ensures bound { IfOk result (λ entries. length entries.items ≤ limit) }
        ensures files { told_files self.new ≡ told_files self.old }
        ensures cause { HasCauseAt ListError.Failed 0 0 result }

        // No call fails.
        ensures not_failed { ¬ IsErrOf result ListError.Failed }
        ensures counted { calls_so_far self.new ≡ next_number (calls_so_far self.old) }
        ensures room { room_for_writes self.new ≡ room_for_writes self.old }
    {
        self.store.list(alloc, dir, limit)
    }
}

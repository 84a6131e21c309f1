ghost use Rattle.std.specs.Prelude.{◌≡◌, [], ℕ, List, IfSome, IfOk, OnOk, OnErr, Ok, Some, is_some};
ghost use Rattle.std.specs.BTreeMap.{is_at};
ghost use Rattle.std.specs.FinMap.{keys};
ghost use Rattle.std.specs.Map.{lookup};
ghost use Rattle.std.specs.Ordering.{nat_cmp};
ghost use Rattle.std.specs.Cmp.Lexicographic.{slice_cmp};
ghost use Rattle.bp_ports.specs.Causes.{HasCauseAt};
ghost use Rattle.source_patterns.specs.Listed.{EntriesGive, HasFew, AreKept, kept_entries};

use bp_faults::{OutOfMemory, Text};
use bp_ports::{ListError, Store};
use dir_entries::DirEntry;
use path_patterns::limits::MOST_ENTRIES;
use path_patterns::{DirError, Directories};
use std::alloc::Global;
use std::collections::BTreeMap;

/// The entries of a directory, of which an absent one has none.
fn list<S: Store>(alloc: Global, store: &mut S, dir: &Text) -> Result<Vec<DirEntry>, DirError>
    ensures gives { IfSome (S.files store.old) (λ files. EntriesGive (keys files) dir.now result) }
    ensures files { S.files store.new ≡ S.files store.old }
    ensures cause { HasCauseAt DirError.Failed (S.read_faults store.old) (S.read_faults store.new) result }
    ensures writes { S.write_faults store.new ≡ S.write_faults store.old }
{
    match store.list(alloc, dir, MOST_ENTRIES) {
        Ok(entries) => Ok(entries),
        Err(ListError::Absent) => Ok(Vec::new(alloc)),
        Err(ListError::TooMany) => Err(DirError::TooMany),
        Err(ListError::Failed) => Err(DirError::Failed),
        Err(ListError::OutOfMemory) => Err(DirError::OutOfMemory),
    }
}

/// Keeps the entries of a directory.
fn keep(
    alloc: Global,
    known: &mut BTreeMap<Text, Vec<DirEntry>>,
    dir: &Text,
    entries: Vec<DirEntry>,
) -> Result<(), OutOfMemory>
    ensures kept { (held : List (List ℕ)) → HasFew held dir.now entries → AreKept held known.old.entries
        → AreKept held known.new.entries }
    ensures there { OnOk result (lookup (is_at (slice_cmp nat_cmp dir.now)) known.new.entries ≡ Some entries) }
{
    known.insert(dir.copy(alloc)?, entries)?;
    Ok(())
}

/// Whether the entries of a directory are kept.
fn is_kept(known: &BTreeMap<Text, Vec<DirEntry>>, dir: &Text) -> bool
    ensures { result ≡ is_some (lookup (is_at (slice_cmp nat_cmp dir.now)) known.now.entries) }
{
    known.contains_key(dir)
}

/// The entries that are kept of a directory, and none where none are.
fn kept_entries<'k>(known: &'k BTreeMap<Text, Vec<DirEntry>>, dir: &Text) -> &'k [DirEntry]
    ensures { result.now ≡ kept_entries known.now.entries dir.now }
{
    match known.get(dir) {
        Some(entries) => entries.as_slice(),
        None => &[],
    }
}

/// What was listed of directories, and which was asked for last.
#[derive(Drop)]
pub struct Cache {
    alloc: Global,
    pub known: BTreeMap<Text, Vec<DirEntry>>,
    last: Text,
}

impl Cache {
    /// Nothing is kept yet. It takes no memory.
    pub fn new(alloc: Global) -> Cache
        ensures { result.known.entries ≡ [] }
    {
        Cache {
            alloc,
            known: BTreeMap::new(alloc),
            last: Text::new(String::new(alloc)),
        }
    }
}

/// The directories of a store. What was listed of one is kept, so that it is listed once.
#[derive(Drop)]
pub struct Listings<'a, 'b, S> {
    pub store: &'a mut S,
    pub cache: &'b mut Cache,
}

impl<'a, 'b, S: Store> Listings<'a, 'b, S> {
    ghost use Rattle.path_patterns.specs.Reads.{DirGives};
    ghost use Rattle.source_patterns.specs.Listed.{AreKept, kept_entries};

    // Lists a directory and keeps what it has, unless that is kept.
    fn learn(&mut self, dir: &Text) -> Result<(), DirError>
        requires { IfSome (S.files self.old.store.now)
            (λ files. AreKept (keys files) self.old.cache.now.known.entries) }
        ensures kept { IfSome (S.files self.old.store.now)
            (λ files. AreKept (keys files) self.new.cache.now.known.entries) }
        ensures gives { IfSome (S.files self.old.store.now) (λ files.
            DirGives (keys files) dir.now (kept_entries self.new.cache.now.known.entries dir.now) result) }
        ensures place { self.new.store.ghost_name ≡ self.old.store.ghost_name }
        ensures cache { self.new.cache.ghost_name ≡ self.old.cache.ghost_name }
        ensures files { S.files self.new.store.now ≡ S.files self.old.store.now }
        ensures cause { HasCauseAt DirError.Failed (S.read_faults self.old.store.now)
            (S.read_faults self.new.store.now) result }
        ensures writes { S.write_faults self.new.store.now ≡ S.write_faults self.old.store.now }
    {
        let alloc = self.cache.alloc;
        if is_kept(&self.cache.known, dir) {
            return Ok(());
        }
        let entries = list(alloc, self.store, dir)?;
        match keep(alloc, &mut self.cache.known, dir, entries) {
            Ok(()) => Ok(()),
            Err(_) => Err(DirError::OutOfMemory),
        }
    }
}

impl<'a, 'b, S: Store> Directories for Listings<'a, 'b, S> {
    ghost use Rattle.std.specs.Prelude.{ℕ, Option, IfSome, option_map};
    ghost use Rattle.std.specs.Borrow.{GName};
    ghost use Rattle.std.specs.FinMap.{keys};
    ghost use Rattle.bp_ports.specs.Files.{Files};
    ghost use Rattle.source_patterns.specs.Listed.{AreKept, kept_entries};

    ghost held = { λ l. option_map keys (S.files l.store.now) };

    ghost faults = { λ l. S.read_faults l.store.now };

    ghost last = { λ l. kept_entries l.cache.now.known.entries l.cache.now.last };

    ghost Kept = { GName × GName × Option Files × ℕ };

    ghost kept = { λ l.
        (l.store.ghost_name, l.cache.ghost_name, S.files l.store.now, S.write_faults l.store.now) };

    ghost IsReady = { λ l. IfSome (S.files l.store.now)
        (λ files. AreKept (keys files) l.cache.now.known.entries) };

    fn read(&mut self, dir: &Text) -> Result<(), DirError> {
        self.learn(dir)?;
        match dir.copy(self.cache.alloc) {
            Ok(last) => {
                self.cache.last = last;
                Ok(())
            }
            Err(_) => Err(DirError::OutOfMemory),
        }
    }

    fn entries(&self) -> &[DirEntry] {
        kept_entries(&self.cache.known, &self.cache.last)
    }
}

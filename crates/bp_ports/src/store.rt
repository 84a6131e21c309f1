ghost use Rattle.std.specs.Prelude.{◌≡◌, ℕ, ◌≤◌, Option, IfOk, IfSome, length};
ghost use Rattle.std.specs.FinMap.{get};
ghost use Rattle.bp_ports.specs.Causes.{HasCause, HasCauseAt};

use crate::Failed;
use bp_faults::{OutOfMemory, Text};
use dir_entries::DirEntry;
use std::alloc::Global;
use thiserror::Error;

#[derive(Clone, Copy, Debug, Error, PartialEq, Eq)]
pub enum ReadError {
    #[error("no such file")]
    Absent,
    #[error("file is too large")]
    TooLarge,
    #[error("cannot read")]
    Failed,
    #[error("out of memory")]
    OutOfMemory,
}

#[derive(Clone, Copy, Debug, Error, PartialEq, Eq)]
pub enum ListError {
    #[error("no such directory")]
    Absent,
    #[error("too many entries")]
    TooMany,
    #[error("cannot read")]
    Failed,
    #[error("out of memory")]
    OutOfMemory,
}

impl From<OutOfMemory> for ListError {
    ghost use Rattle.std.specs.Prelude.{◌≡◌};
    ghost use Rattle.bp_ports.specs.declared.store.ListError.TheVariants.{OutOfMemory as Want};

    ghost from_gives = { λ _ error. error ≡ Want };

    fn from(_: OutOfMemory) -> Self {
        ListError::OutOfMemory
    }
}

/// Files by their paths.
pub trait Store {
    ghost use Rattle.bp_ports.specs.Files.{Files, WhereTold, ReadGives, WriteLeaves};
    ghost use Rattle.bp_ports.specs.Lists.{ListGives};

    /// The files, where the store tells them.
    ghost files: { Self → Option Files };

    /// How often a read has failed. It never falls.
    ghost read_faults: { Self → ℕ };

    /// How often a write has failed. It never falls.
    ghost write_faults: { Self → ℕ };

    /// The bytes of a file, at most `limit` of them.
    fn read(&mut self, alloc: Global, path: &Text, limit: u64) -> Result<Vec<u8>, ReadError>
        ensures gives { IfSome (files self.old) (λ held. ReadGives (get held path.now) limit result) }
        ensures bound { IfOk result (λ bytes. length bytes.items ≤ limit) }
        ensures files { files self.new ≡ files self.old }
        ensures cause { HasCauseAt ReadError.Failed (read_faults self.old) (read_faults self.new) result }
        ensures writes { write_faults self.new ≡ write_faults self.old };

    /// Puts a file with these bytes in the place of what the path holds.
    fn write(&mut self, path: &Text, bytes: &[u8]) -> Result<(), Failed>
        ensures files { WhereTold (WriteLeaves path.now bytes.now result) (files self.old) (files self.new) }
        ensures cause { HasCause (write_faults self.old) (write_faults self.new) result }
        ensures reads { read_faults self.new ≡ read_faults self.old };

    /// The entries of a directory, at most `limit` of them. The root is the empty path.
    fn list(&mut self, alloc: Global, dir: &Text, limit: u32) -> Result<Vec<DirEntry>, ListError>
        ensures gives { IfSome (files self.old) (λ held. ListGives held dir.now limit result) }
        ensures bound { IfOk result (λ entries. length entries.items ≤ limit) }
        ensures files { files self.new ≡ files self.old }
        ensures cause { HasCauseAt ListError.Failed (read_faults self.old) (read_faults self.new) result }
        ensures writes { write_faults self.new ≡ write_faults self.old };
}

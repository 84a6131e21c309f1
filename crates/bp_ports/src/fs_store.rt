ghost use Rattle.std.specs.Prelude.{◌≡◌, ◌≤◌, Some, None, IfOk, IfSome, OnOk, length};
ghost use Rattle.bp_ports.specs.Causes.{risen};
ghost use Rattle.bp_ports.specs.Files.{ReadGives};
ghost use Rattle.bp_ports.specs.FailedReads.{read_failure, open_failure};
ghost use Rattle.bp_ports.specs.RealFiles.{OpenedGives, SomeOpeningGives};

use crate::real_list::list_dir;
use crate::replace::replace;
use crate::{Failed, ListError, ReadError, Store};
use bp_faults::Text;
use dir_entries::DirEntry;
use std::alloc::{Alloc, Global};
use std::io::{ErrorKind, Read};
use std::rt::{Clock, Files};
use std::{fs, io};

// Why an open file isn't read, by the kind of the system's error.
fn read_error(kind: ErrorKind) -> ReadError
    ensures { result ≡ read_failure kind }
{
    match kind {
        ErrorKind::OutOfMemory => ReadError::OutOfMemory,
        _ => ReadError::Failed,
    }
}

// Why a file isn't opened, by the kind of the system's error.
fn open_error(kind: ErrorKind) -> ReadError
    ensures { result ≡ open_failure kind }
{
    match kind {
        ErrorKind::NotFound => ReadError::Absent,
        _ => read_error(kind),
    }
}

/// What a reader has left, where that is at most so many bytes.
pub fn contents<F: Read + Drop>(alloc: Global, reader: F, limit: u64) -> Result<Vec<u8>, ReadError>
    ensures gives { IfSome (F.remaining reader) (λ held. ReadGives (Some held) limit result) }
    ensures bound { IfOk result (λ bytes. length bytes.items ≤ limit) }
{
    let mut bytes = Vec::new(alloc);
    match reader.take(limit.saturating_add(1)).read_to_end(&mut bytes) {
        Ok(_) if bytes.len() as u64 > limit => Err(ReadError::TooLarge),
        Ok(_) => Ok(bytes),
        Err(error) => Err(read_error(error.kind())),
    }
}

// What the system answered to the opening of a file, read where it is open: at most so many bytes.
fn read_opened<F: Read + Drop>(
    alloc: Global,
    opened: io::Result<F>,
    limit: u64,
) -> Result<Vec<u8>, ReadError>
    ensures gives { OpenedGives (λ file. F.remaining file) opened limit result }
    ensures bound { IfOk result (λ bytes. length bytes.items ≤ limit) }
{
    match opened {
        Ok(file) => contents(alloc, file, limit),
        Err(error) => Err(open_error(error.kind())),
    }
}

// A count of failures with one more.
fn one_more(count: u64) -> u64
    ensures { result ≡ risen count }
{
    count.saturating_add(1)
}

/// The files of the system. It tells nothing of them.
#[derive(Drop)]
pub struct FsStore<R> {
    rt: R,
    read_faults: u64,
    write_faults: u64,
}

impl<R: Files + Clock + Drop> FsStore<R> {
    ghost use Rattle.bp_ports.specs.FsStore.{failed_reads, failed_writes};

    /// A store over the files of this runtime.
    pub fn new(rt: R) -> FsStore<R>
        ensures reads { failed_reads result ≡ 0 }
        ensures writes { failed_writes result ≡ 0 }
    {
        FsStore {
            rt,
            read_faults: 0,
            write_faults: 0,
        }
    }

    // The file's bytes, at most so many.
    fn bytes(&self, alloc: Global, path: &str, limit: u64) -> Result<Vec<u8>, ReadError>
        ensures opened { SomeOpeningGives (λ file. R.File.remaining file) limit result }
        ensures bound { IfOk result (λ bytes. length bytes.items ≤ limit) }
    {
        read_opened(alloc, fs::open(&self.rt, path), limit)
    }
}

impl<R: Files + Clock + Alloc + Clone + Drop> Store for FsStore<R> {
    ghost use Rattle.bp_ports.specs.Causes.{HasCause, HasCauseAt, count_after, read_count_after};
    ghost use Rattle.bp_ports.specs.Causes.{list_count_after};
    ghost use Rattle.bp_ports.specs.FsStore.{failed_reads, failed_writes};
    ghost use Rattle.bp_ports.specs.RealFiles.{SomeFileGains};

    ghost files = { λ s. None };

    ghost read_faults = { λ s. failed_reads s };

    ghost write_faults = { λ s. failed_writes s };

    fn read(&mut self, alloc: Global, path: &Text, limit: u64) -> Result<Vec<u8>, ReadError>
        ensures bound { IfOk result (λ bytes. length bytes.items ≤ limit) }
        ensures cause { HasCauseAt ReadError.Failed (failed_reads self.old) (failed_reads self.new) result }
        ensures writes { failed_writes self.new ≡ failed_writes self.old }
        ensures raised { failed_reads self.new ≡ read_count_after result (failed_reads self.old) }

        // The answer is that of some opening of a file, at this limit.
        ensures opened { SomeOpeningGives (λ file. R.File.remaining file) limit result }
    {
        match self.bytes(alloc, path.as_str(), limit) {
            Err(ReadError::Failed) => {
                self.read_faults = one_more(self.read_faults);
                Err(ReadError::Failed)
            }
            answer => answer,
        }
    }

    fn write(&mut self, path: &Text, bytes: &[u8]) -> Result<(), Failed>
        ensures cause { HasCause (failed_writes self.old) (failed_writes self.new) result }
        ensures reads { failed_reads self.new ≡ failed_reads self.old }
        ensures raised { failed_writes self.new ≡ count_after result (failed_writes self.old) }

        // Nothing is done before all the bytes are with a file.
        ensures gained { OnOk result (SomeFileGains (λ file. R.File.contents file) bytes.now) }
    {
        match replace(&self.rt, path.as_str(), bytes) {
            Ok(()) => Ok(()),
            Err(_) => {
                self.write_faults = one_more(self.write_faults);
                Err(Failed)
            }
        }
    }

    fn list(&mut self, alloc: Global, dir: &Text, limit: u32) -> Result<Vec<DirEntry>, ListError>
        ensures bound { IfOk result (λ entries. length entries.items ≤ limit) }
        ensures cause { HasCauseAt ListError.Failed (failed_reads self.old) (failed_reads self.new) result }
        ensures writes { failed_writes self.new ≡ failed_writes self.old }
        ensures raised { failed_reads self.new ≡ list_count_after result (failed_reads self.old) }
    {
        match list_dir(&self.rt, alloc, dir.as_str(), limit) {
            Err(ListError::Failed) => {
                self.read_faults = one_more(self.read_faults);
                Err(ListError::Failed)
            }
            answer => answer,
        }
    }
}

ghost use Rattle.std.specs.Prelude.{◌≡◌, ◌<◌, ◌≤◌, length, IfSome, IfNone, IsTrue, ◌↔◌, OnOk};
ghost use Rattle.std.specs.Fs.{IsFile};
ghost use Rattle.std.specs.Io.KnownBytes.{Appends};
ghost use Rattle.bp_ports.specs.NewFiles.{new_suffix, new_path};
ghost use Rattle.bp_ports.specs.RealFiles.{SomeFileGains};

use crate::writing::write_through;
use arrayvec::ArrayString;
use std::fs::FileType;
use std::io::{Error, ErrorKind, Write};
use std::rt::{Clock, Files};
use std::{fs, io};

/// The system takes no longer path.
const LONGEST: usize = 4096;

/// How many new files there may be beside one file.
const NEW_FILES: usize = 3;

/// After so many seconds without a write, a new file is left over by a run that was stopped.
const LEFT_OVER_AFTER: u64 = 600;

fn suffix(number: usize) -> &'static str
    requires { number < NEW_FILES }
    ensures { result.now ≡ new_suffix number }
{
    match number {
        0 => ".bpgen-new",
        1 => ".bpgen-new-2",
        _ => ".bpgen-new-3",
    }
}

// The path of a new file beside the one at this path, made where no memory is taken.
fn path_beside(path: &str, number: usize) -> Option<ArrayString<LONGEST>>
    requires { number < NEW_FILES }
    ensures path { IfSome result (λ beside. beside.bytes ≡ new_path path.now number) }
    ensures long { IfNone result (LONGEST < length (new_path path.now number)) }
{
    let mut beside = ArrayString::from(path).ok()?;
    beside.try_push_str(suffix(number)).ok()?;
    Some(beside)
}

// Writes all the bytes to a new file, and then gives it its place.
fn fill<W: Write, P: FnOnce() -> io::Result<()> + Drop>(
    file: &mut W,
    bytes: &[u8],
    place: P,
) -> io::Result<()>
    requires { P.pre place }
    ensures filled { OnOk result (Appends (W.contents file.old) (W.contents file.new) bytes.now) }
    ensures placed { OnOk result (P.post place result) }
{
    write_through(file, bytes)?;
    place()
}

// Makes a new file that takes the place of the old one. Where that fails, no new file is left.
fn write_beside<R: Files>(rt: &R, beside: &str, path: &str, bytes: &[u8]) -> io::Result<()>
    ensures { OnOk result (SomeFileGains (λ file. R.File.contents file) bytes.now) }
{
    let mut file = fs::File::create_new(rt, beside)?;
    let done = fill(&mut file, bytes, || fs::rename(rt, beside, path));
    if done.is_err() {
        let _ = fs::remove_file(rt, beside);
    }
    done
}

// Whether a run that was stopped left a file of this kind, last written so many seconds ago.
fn is_left_over(kind: FileType, age: u64) -> bool
    ensures { IsTrue result ↔ (IsFile kind × (600 ≤ age)) }
{
    kind.is_file() && age >= LEFT_OVER_AFTER
}

// Removes a regular file that nobody has written to lately.
fn remove_left_over<R: Files + Clock>(rt: &R, path: &str) -> io::Result<()> {
    let found = fs::symlink_metadata(rt, path)?;
    let age = found.modified()?.elapsed(rt)?;
    if is_left_over(found.file_type(), age.as_secs()) {
        fs::remove_file(rt, path)?;
    }
    Ok(())
}

// Writes the first new file whose path is free. What stopped runs left at the paths can be removed first.
fn write_new<R: Files + Clock>(rt: &R, path: &str, bytes: &[u8], removes: bool) -> io::Result<()>
    ensures { OnOk result (SomeFileGains (λ file. R.File.contents file) bytes.now) }
{
    for number in 0..NEW_FILES {
        let Some(beside) = path_beside(path, number) else {
            return Err(Error::from(ErrorKind::InvalidFilename));
        };
        if removes {
            let _ = remove_left_over(rt, beside.as_str());
        }
        match write_beside(rt, beside.as_str(), path, bytes) {
            Err(error) if error.kind() == ErrorKind::AlreadyExists => {}
            done => return done,
        }
    }
    Err(Error::from(ErrorKind::AlreadyExists))
}

// Whether the path holds what is no regular file, as a device or a symbolic link.
fn is_special<R: Files>(rt: &R, path: &str) -> bool {
    matches!(fs::symlink_metadata(rt, path), Ok(found) if !found.is_file())
}

// Writes all the bytes to what the path holds, where it is.
fn write_over<R: Files>(rt: &R, path: &str, bytes: &[u8]) -> io::Result<()>
    ensures { OnOk result (SomeFileGains (λ file. R.File.contents file) bytes.now) }
{
    let mut file = fs::create(rt, path)?;
    write_through(&mut file, bytes)
}

/// Puts a file with these bytes in the place of what the path holds. Who opens the path meanwhile
/// finds the old file or the new one, whole. What is no regular file is written where it is. Files
/// beside it are kept; only where all paths of new files are taken, those that stopped runs left
/// are removed.
pub fn replace<R: Files + Clock>(rt: &R, path: &str, bytes: &[u8]) -> io::Result<()>
    ensures { OnOk result (SomeFileGains (λ file. R.File.contents file) bytes.now) }
{
    if is_special(rt, path) {
        return write_over(rt, path, bytes);
    }
    match write_new(rt, path, bytes, false) {
        Err(error) if error.kind() == ErrorKind::AlreadyExists => {
            write_new(rt, path, bytes, true)
        }
        done => done,
    }
}

use super::{reads, reads_as, shown_read, text, writes};
use crate::rows::check_row;
use bp_faults::OutOfMemory;
use bp_ports::{FsStore, ReadError, Store};
use std::alloc::Global;
use std::fs::{File, Permissions};
use std::os::unix::fs::{FileTypeExt, PermissionsExt, symlink};
use std::test::Fail;
use std::time::{Duration, SystemTime};
use std::{fs, io};

fn make_folder(rt: &HostRuntime, folder: &str) -> io::Result<()> {
    let _ = fs::remove_dir_all(rt, folder);
    fs::create_dir(rt, folder)
}

// Whether the bytes are written.
fn is_written<S: Store>(
    alloc: Global,
    store: &mut S,
    path: &str,
    bytes: &[u8],
) -> Result<bool, OutOfMemory> {
    Ok(writes(store, &text(alloc, path)?, bytes).is_ok())
}

// Whether the path holds these bytes and no more.
fn holds<S: Store>(
    alloc: Global,
    store: &mut S,
    path: &str,
    bytes: &[u8],
) -> Result<bool, ReadError> {
    reads_as(alloc, store, path, bytes.len() as u64, bytes)
}

/// How many bytes a long text has: more than two MiB, and no round number.
const LONG: u64 = 2_100_003;

// A text of so many bytes. Two of them with different masks differ in each byte.
fn long_text(alloc: Global, length: u64, mask: u8) -> Result<Vec<u8>, OutOfMemory> {
    let mut bytes = Vec::new(alloc);
    for number in 0..length {
        bytes.push((number % 251) as u8 ^ mask)?;
    }
    Ok(bytes)
}

/// Limits at which a long file is read, and what comes: whether the bytes are the right ones, or why there are none.
const LIMITS: &[(u64, Result<bool, ReadError>)] = &[
    (0, Err(ReadError::TooLarge)),
    (LONG / 2 + 1, Err(ReadError::TooLarge)),
    (LONG - 1, Err(ReadError::TooLarge)),
    (LONG, Ok(true)),
    (LONG + 1, Ok(true)),
    (u64::MAX, Ok(true)),
];

// The limits at which the path isn't read as one that holds these bytes.
fn wrong_limits<S: Store>(
    alloc: Global,
    store: &mut S,
    path: &str,
    bytes: &[u8],
) -> Result<String, OutOfMemory> {
    let mut wrong = String::new(alloc);
    for (limit, want) in LIMITS {
        let found = reads_as(alloc, store, path, *limit, bytes);
        check_row(&mut wrong, *limit, found, *want)?;
    }
    Ok(wrong)
}

/// How many files a folder has.
fn count_in(rt: &HostRuntime, folder: &str) -> io::Result<usize> {
    Ok(fs::read_dir(rt, folder)?.count())
}

/// Whether the file of the path is written, the second path made another name of it, and the first one written anew.
fn replaces(
    rt: &HostRuntime,
    store: &mut FsStore<HostRuntime>,
    (path, old): (&str, &str),
    bytes: &[u8],
) -> Result<bool, Fail> {
    let is_old = is_written(rt.alloc(), store, path, b"old")?;
    fs::hard_link(rt, path, old)?;
    Ok(is_old && is_written(rt.alloc(), store, path, bytes)?)
}

#[test]
fn a_real_file_is_replaced_as_a_whole(rt: HostRuntime) -> Result<(), Fail> {
    make_folder(&rt, "bp_ports_whole")?;
    let mut store = FsStore::new(rt);
    let long = long_text(rt.alloc(), LONG, 0)?;
    let paths = ("bp_ports_whole/out", "bp_ports_whole/old");
    assert!(rt; replaces(&rt, &mut store, paths, &long)?);
    let wrong = wrong_limits(rt.alloc(), &mut store, "bp_ports_whole/out", &long)?;
    assert!(rt; wrong.is_empty(), "{wrong}");
    assert!(rt; holds(rt.alloc(), &mut store, "bp_ports_whole/old", b"old")?);
    fs::remove_dir_all(&rt, "bp_ports_whole")?;
    Ok(())
}

#[test]
fn a_real_file_is_replaced_by_one_of_its_length(rt: HostRuntime) -> Result<(), Fail> {
    make_folder(&rt, "bp_ports_again")?;
    let mut store = FsStore::new(rt);
    let (first, second) = (
        long_text(rt.alloc(), 5_003, 0)?,
        long_text(rt.alloc(), 5_003, 1)?,
    );
    assert!(rt; is_written(rt.alloc(), &mut store, "bp_ports_again/out", &first)?);
    assert!(rt; is_written(rt.alloc(), &mut store, "bp_ports_again/out", &second)?);
    assert_eq!(rt;
        holds(rt.alloc(), &mut store, "bp_ports_again/out", &second),
        Ok(true)
    );
    fs::remove_dir_all(&rt, "bp_ports_again")?;
    Ok(())
}

/// Paths that are read, with a limit, and what comes as a text.
const READS: &[(&str, u64, &str)] = &[
    ("bp_ports_reads/none", 9, "no such file"),
    ("bp_ports_reads/short", 4, "file is too large"),
    ("bp_ports_reads/short", 5, "short"),
    ("bp_ports_reads/short", 6, "short"),
    ("bp_ports_reads/empty", 0, ""),
    // a folder, a path below a file, and a link to itself
    ("bp_ports_reads", 9, "cannot read"),
    ("bp_ports_reads/short/x", 9, "cannot read"),
    ("bp_ports_reads/loop", 9, "cannot read"),
];

// The paths of which something else comes.
fn wrong_reads<S: Store>(alloc: Global, store: &mut S) -> Result<String, OutOfMemory> {
    let mut wrong = String::new(alloc);
    for (path, limit, want) in READS {
        let found = shown_read(alloc, store, path, *limit)?;
        check_row(&mut wrong, (*path, *limit), found.as_str(), *want)?;
    }
    Ok(wrong)
}

// What comes of a path with a name that is longer than any may be.
fn shown_long<S: Store>(alloc: Global, store: &mut S) -> Result<String, OutOfMemory> {
    let too_long = format!(in alloc; "bp_ports_reads/{:0256}", 0)?;
    shown_read(alloc, store, too_long.as_str(), 9)
}

#[test]
fn real_files_are_read_up_to_their_limits(rt: HostRuntime) -> Result<(), Fail> {
    make_folder(&rt, "bp_ports_reads")?;
    symlink(&rt, "loop", "bp_ports_reads/loop")?;
    let mut store = FsStore::new(rt);
    assert!(rt; is_written(rt.alloc(), &mut store, "bp_ports_reads/short", b"short")?);
    assert!(rt; is_written(rt.alloc(), &mut store, "bp_ports_reads/empty", b"")?);
    let wrong = wrong_reads(rt.alloc(), &mut store)?;
    assert!(rt; wrong.is_empty(), "{wrong}");
    assert_eq!(rt; shown_long(rt.alloc(), &mut store)?.as_str(), "cannot read");
    fs::remove_dir_all(&rt, "bp_ports_reads")?;
    Ok(())
}

// What comes of a file that nobody has leave to read. The system lets its administrator read it all the same.
fn shown_barred(rt: &HostRuntime, path: &str) -> Result<String, Fail> {
    let mut store = FsStore::new(*rt);
    fs::write(rt, path, b"barred".as_slice())?;
    fs::set_permissions(rt, path, Permissions::from_mode(0))?;
    Ok(shown_read(rt.alloc(), &mut store, path, 9)?)
}

#[test]
fn a_file_that_may_not_be_read_is_not_absent(rt: HostRuntime) -> Result<(), Fail> {
    let shown = shown_barred(&rt, "bp_ports_barred")?;
    let is_refused = shown.as_str() == "cannot read";
    assert!(rt; is_refused || shown.as_str() == "barred", "{shown}");
    fs::remove_file(&rt, "bp_ports_barred")?;
    Ok(())
}

/// Paths that can't be written.
const UNWRITTEN: &[&str] = &["", "bp_ports_test", "bp_ports_test/old/x", "/dev/full"];

// The paths that are written all the same.
fn wrongly_written<S: Store>(alloc: Global, store: &mut S) -> Result<String, OutOfMemory> {
    let mut wrong = String::new(alloc);
    for path in UNWRITTEN {
        let found = is_written(alloc, store, path, b"x")?;
        check_row(&mut wrong, *path, found, false)?;
    }
    Ok(wrong)
}

/// Whether a path is written that is longer than any may be.
fn writes_too_long<S: Store>(alloc: Global, store: &mut S) -> Result<bool, OutOfMemory> {
    let too_long = format!(in alloc; "bp_ports_test/{:04080}", 0)?;
    is_written(alloc, store, too_long.as_str(), b"x")
}

/// Whether a path that is too long is written, whether a new file is left where the test runs, and how many files the
/// folder has.
fn left_by_failing(
    rt: &HostRuntime,
    store: &mut FsStore<HostRuntime>,
    folder: &str,
) -> Result<(bool, bool, usize), Fail> {
    let is_too_long_written = writes_too_long(rt.alloc(), store)?;
    let is_left = fs::exists(rt, ".bpgen-new")?;
    Ok((is_too_long_written, is_left, count_in(rt, folder)?))
}

#[test]
fn a_write_that_fails_leaves_no_file(rt: HostRuntime) -> Result<(), Fail> {
    make_folder(&rt, "bp_ports_test")?;
    let mut store = FsStore::new(rt);
    let paths = ("bp_ports_test/out", "bp_ports_test/old");
    assert!(rt; replaces(&rt, &mut store, paths, b"new")?);
    let wrong = wrongly_written(rt.alloc(), &mut store)?;
    assert!(rt; wrong.is_empty(), "{wrong}");
    let left = left_by_failing(&rt, &mut store, "bp_ports_test")?;
    assert_eq!(rt; left, (false, false, 2));
    fs::remove_dir_all(&rt, "bp_ports_test")?;
    Ok(())
}

/// Whether the path is a device that takes characters.
fn leads_to_device(rt: &HostRuntime, path: &str) -> io::Result<bool> {
    Ok(fs::metadata(rt, path)?.file_type().is_char_device())
}

#[test]
fn a_device_is_written(rt: HostRuntime) -> Result<(), Fail> {
    let mut store = FsStore::new(rt);
    assert!(rt; is_written(rt.alloc(), &mut store, "/dev/null", b"x")?);
    assert!(rt; leads_to_device(&rt, "/dev/null")?);
    Ok(())
}

#[test]
fn a_file_in_no_folder_is_written(rt: HostRuntime) -> Result<(), Fail> {
    let mut store = FsStore::new(rt);
    assert!(rt; is_written(rt.alloc(), &mut store, "bp_ports_test_out", b"x")?);
    fs::remove_file(&rt, "bp_ports_test_out")?;
    Ok(())
}

/// Whether the path is a symbolic link.
fn leads_to_link(rt: &HostRuntime, path: &str) -> io::Result<bool> {
    Ok(fs::symlink_metadata(rt, path)?.is_symlink())
}

#[test]
fn a_symbolic_link_is_written_through(rt: HostRuntime) -> Result<(), Fail> {
    make_folder(&rt, "bp_ports_links")?;
    symlink(&rt, "file", "bp_ports_links/link")?;
    let mut store = FsStore::new(rt);
    let long = long_text(rt.alloc(), 5_003, 2)?;
    assert!(rt; is_written(rt.alloc(), &mut store, "bp_ports_links/link", &long)?);
    assert!(rt; leads_to_link(&rt, "bp_ports_links/link")?);
    assert_eq!(rt;
        holds(rt.alloc(), &mut store, "bp_ports_links/file", &long),
        Ok(true)
    );
    fs::remove_dir_all(&rt, "bp_ports_links")?;
    Ok(())
}

const FIRST: &str = "bp_ports_beside/out.bpgen-new";

const SECOND: &str = "bp_ports_beside/out.bpgen-new-2";

const THIRD: &str = "bp_ports_beside/out.bpgen-new-3";

/// The seconds since each of three new files was written to.
type Ages = (Option<u64>, Option<u64>, Option<u64>);

/// New files beside a file, whether the file is written while they are there, and which of them are kept.
const BESIDE: &[(Ages, bool, (bool, bool, bool))] = &[
    ((Some(0), None, None), true, (true, false, false)),
    ((Some(0), Some(0), None), true, (true, true, false)),
    ((Some(0), Some(0), Some(0)), false, (true, true, true)),
    // where a path is free, old files are kept too
    ((None, Some(6_000), None), true, (false, true, false)),
    ((Some(6_000), None, None), true, (true, false, false)),
    ((Some(6_000), Some(6_000), None), true, (true, true, false)),
    // nine minutes, and eleven
    ((Some(540), Some(540), Some(540)), false, (true, true, true)),
    ((Some(540), Some(660), Some(0)), true, (true, false, true)),
];

/// Makes a file that was last written to so many seconds ago.
fn make_aged(rt: &HostRuntime, path: &str, seconds: u64) -> Result<(), Fail> {
    fs::write(rt, path, b"kept".as_slice())?;
    let now = SystemTime::now(rt)?;
    let then = now
        .checked_sub(Duration::from_secs(seconds))
        .ok_or("the clock is wrong")?;
    File::options()
        .write(true)
        .open(rt, path)?
        .set_modified(then)?;
    Ok(())
}

// Makes the new files of a row.
fn make_beside(rt: &HostRuntime, ages: Ages) -> Result<(), Fail> {
    if let Some(seconds) = ages.0 {
        make_aged(rt, FIRST, seconds)?;
    }
    if let Some(seconds) = ages.1 {
        make_aged(rt, SECOND, seconds)?;
    }
    if let Some(seconds) = ages.2 {
        make_aged(rt, THIRD, seconds)?;
    }
    Ok(())
}

// Which of the new files are kept.
fn kept_beside<S: Store>(alloc: Global, store: &mut S) -> (bool, bool, bool) {
    let first = holds(alloc, store, FIRST, b"kept") == Ok(true);
    let second = holds(alloc, store, SECOND, b"kept") == Ok(true);
    let third = holds(alloc, store, THIRD, b"kept") == Ok(true);
    (first, second, third)
}

/// Whether the file is written, and which of the new files are kept.
fn writes_beside(
    rt: &HostRuntime,
    store: &mut FsStore<HostRuntime>,
    ages: Ages,
) -> Result<(bool, (bool, bool, bool)), Fail> {
    make_folder(rt, "bp_ports_beside")?;
    make_beside(rt, ages)?;
    let is_written = is_written(rt.alloc(), store, "bp_ports_beside/out", b"done")?;
    let is_done = holds(rt.alloc(), store, "bp_ports_beside/out", b"done") == Ok(true);
    Ok((is_written && is_done, kept_beside(rt.alloc(), store)))
}

// The rows that come out otherwise.
fn wrongly_beside(rt: &HostRuntime, store: &mut FsStore<HostRuntime>) -> Result<String, Fail> {
    let mut wrong = String::new(rt.alloc());
    for (ages, is_written, kept) in BESIDE {
        let found = writes_beside(rt, store, *ages)?;
        check_row(&mut wrong, *ages, found, (*is_written, *kept))?;
    }
    Ok(wrong)
}

#[test]
fn files_beside_a_real_one_are_kept(rt: HostRuntime) -> Result<(), Fail> {
    let mut store = FsStore::new(rt);
    let wrong = wrongly_beside(&rt, &mut store)?;
    assert!(rt; wrong.is_empty(), "{wrong}");
    fs::remove_dir_all(&rt, "bp_ports_beside")?;
    Ok(())
}

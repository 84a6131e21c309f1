use crate::rows::check_row;
use bp_faults::{OutOfMemory, Text};
use bp_ports::{DirEntry, FreeStore, FsStore, MemStore, Store};
use std::alloc::Global;
use std::fs::Permissions;
use std::os::unix::fs::{PermissionsExt, symlink};
use std::test::Fail;
use std::{fs, io};

/// The entries with a blank behind each, and before it a slash behind a directory.
fn line(alloc: Global, entries: &[DirEntry]) -> Result<String, OutOfMemory> {
    let mut line = String::new(alloc);
    for entry in entries {
        line.push_str(entry.name.as_str())?;
        line.push_str(if entry.dir { "/ " } else { " " })?;
    }
    Ok(line)
}

/// What a directory comes to, as a text: its entries or the error.
fn shown<S: Store>(
    alloc: Global,
    store: &mut S,
    dir: &str,
    limit: u32,
) -> Result<String, OutOfMemory> {
    match store.list(alloc, &Text::from_str(alloc, dir)?, limit) {
        Ok(entries) => line(alloc, entries.as_slice()),
        Err(error) => Ok(format!(in alloc; "{error}")?),
    }
}

/// Directories with limits, and what each comes to.
type Rows = &'static [(&'static str, u32, &'static str)];

/// The directories that come to something else.
fn wrong_rows<S: Store>(alloc: Global, store: &mut S, rows: Rows) -> Result<String, OutOfMemory> {
    let mut wrong = String::new(alloc);
    for (dir, limit, want) in rows {
        let found = shown(alloc, store, dir, *limit)?;
        check_row(&mut wrong, (*dir, *limit), found.as_str(), *want)?;
    }
    Ok(wrong)
}

/// Files that have no bytes.
fn empty_files(alloc: Global, paths: &[&str]) -> Result<Vec<(Text, Vec<u8>)>, OutOfMemory> {
    let mut files = Vec::new(alloc);
    for path in paths {
        files.push((Text::from_str(alloc, path)?, Vec::new(alloc)))?;
    }
    Ok(files)
}

const PATHS: &[&str] = &["b/d/f", "b", "ab/x", "a", "b/c", "b/d/e", "b/c"];

/// Among them a name that is file and directory, a file, an absent directory, a part of a name, and the limits of one.
const IN_MEMORY: Rows = &[
    ("", 4, "a ab/ b b/ "),
    ("", 3, "too many entries"),
    ("b", 2, "c d/ "),
    ("b/d", 2, "e f "),
    ("b/d", 1, "too many entries"),
    ("b/d", 0, "too many entries"),
    ("a", 9, "no such directory"),
    ("c", 0, "no such directory"),
    ("b/", 9, "no such directory"),
];

#[test]
fn held_paths_are_listed(rt: HostRuntime) -> Result<(), Fail> {
    let alloc = rt.alloc();
    let files = empty_files(alloc, PATHS)?;
    let mut store = MemStore::new(alloc, files, 0, Vec::new(alloc))?;
    let wrong = wrong_rows(alloc, &mut store, IN_MEMORY)?;
    assert!(rt; wrong.is_empty(), "{wrong}");
    let mut free = FreeStore::new(alloc, empty_files(alloc, PATHS)?, 0)?;
    let wrong = wrong_rows(alloc, &mut free, IN_MEMORY)?;
    assert!(rt; wrong.is_empty(), "{wrong}");
    Ok(())
}

#[test]
fn a_store_without_files_has_a_root(rt: HostRuntime) -> Result<(), Fail> {
    let alloc = rt.alloc();
    let mut store = MemStore::new(alloc, Vec::new(alloc), 0, Vec::new(alloc))?;
    assert_eq!(rt; shown(alloc, &mut store, "", 0)?.as_str(), "");
    Ok(())
}

/// Whether an empty file is written.
fn is_written<S: Store>(alloc: Global, store: &mut S, path: &str) -> Result<bool, OutOfMemory> {
    let done = store.write(&Text::from_str(alloc, path)?, b"");
    Ok(done.is_ok())
}

/// Whether a file is read.
fn is_read<S: Store>(alloc: Global, store: &mut S, path: &str) -> Result<bool, OutOfMemory> {
    let path = Text::from_str(alloc, path)?;
    Ok(store.read(alloc, &path, 0).is_ok())
}

#[test]
fn a_written_file_is_listed(rt: HostRuntime) -> Result<(), Fail> {
    let alloc = rt.alloc();
    let files = empty_files(alloc, PATHS)?;
    let mut store = MemStore::new(alloc, files, 99, Vec::new(alloc))?;
    assert!(rt; is_written(alloc, &mut store, "b/n/w")?);
    assert!(rt; is_written(alloc, &mut store, "b/c")?);
    assert_eq!(rt; shown(alloc, &mut store, "b", 9)?.as_str(), "c d/ n/ ");
    assert_eq!(rt; shown(alloc, &mut store, "b/n", 9)?.as_str(), "w ");
    Ok(())
}

#[test]
fn calls_are_counted_together(rt: HostRuntime) -> Result<(), Fail> {
    let alloc = rt.alloc();
    let files = empty_files(alloc, PATHS)?;
    let mut store = MemStore::new(alloc, files, 99, vec![in alloc; 3, 4]?)?;
    assert!(rt; is_read(alloc, &mut store, "a")?);
    assert!(rt; is_written(alloc, &mut store, "n")?);
    assert_eq!(rt; shown(alloc, &mut store, "b", 9)?.as_str(), "cannot read");
    assert!(rt; !is_read(alloc, &mut store, "a")?);
    assert_eq!(rt; shown(alloc, &mut store, "b", 9)?.as_str(), "c d/ ");
    assert_eq!(rt; store.calls(), 5);
    Ok(())
}

/// The most entries of a directory that a pattern meets.
const MOST: u32 = 131_072;

/// So many files in one directory, the last first.
fn wide(alloc: Global, count: u32) -> Result<Vec<(Text, Vec<u8>)>, OutOfMemory> {
    let mut files = Vec::new(alloc);
    for number in 0..count {
        let name = format!(in alloc; "w/{:06}", count - number)?;
        files.push((Text::compact(alloc, name), Vec::new(alloc)))?;
    }
    Ok(files)
}

/// How many entries the directory `w` of so many files has, if they are no more than the most.
fn count_in_wide(alloc: Global, count: u32) -> Result<Option<usize>, OutOfMemory> {
    let mut store = MemStore::new(alloc, wide(alloc, count)?, 0, Vec::new(alloc))?;
    match store.list(alloc, &Text::from_str(alloc, "w")?, MOST) {
        Ok(entries) => Ok(Some(entries.len())),
        Err(_) => Ok(None),
    }
}

#[test]
fn a_wide_directory_is_listed_up_to_the_limit(rt: HostRuntime) -> Result<(), Fail> {
    assert_eq!(rt; count_in_wide(rt.alloc(), MOST)?, Some(131_072));
    assert_eq!(rt; count_in_wide(rt.alloc(), MOST + 1)?, None);
    Ok(())
}

fn make_folder(rt: &HostRuntime, folder: &str) -> io::Result<()> {
    let _ = fs::remove_dir_all(rt, folder);
    fs::create_dir(rt, folder)
}

/// A folder with files, folders and links.
fn make_tree(rt: &HostRuntime) -> io::Result<()> {
    make_folder(rt, "bp_ports_list")?;
    fs::create_dir_all(rt, "bp_ports_list/d/y")?;
    fs::create_dir(rt, "bp_ports_list/empty")?;
    for path in ["bp_ports_list/b", "bp_ports_list/a", "bp_ports_list/d/x"] {
        fs::write(rt, path, b"".as_slice())?;
    }
    symlink(rt, "d", "bp_ports_list/link")?;
    symlink(rt, "none", "bp_ports_list/lost")?;
    symlink(rt, "self", "bp_ports_list/self")
}

/// Real directories: links in one are files, also those that lead to a directory or nowhere, and one that is asked for
/// is followed. A file and what is below it are no directories.
const REAL: Rows = &[
    ("bp_ports_list", 7, "a b d/ empty/ link lost self "),
    ("bp_ports_list", 6, "too many entries"),
    ("bp_ports_list/", 7, "a b d/ empty/ link lost self "),
    ("bp_ports_list/d", 9, "x y/ "),
    ("bp_ports_list/link", 9, "x y/ "),
    ("bp_ports_list/empty", 0, ""),
    ("bp_ports_list/none", 9, "no such directory"),
    ("bp_ports_list/a", 9, "no such directory"),
    ("bp_ports_list/a/x", 9, "no such directory"),
    ("bp_ports_list/lost", 9, "no such directory"),
    ("bp_ports_list/self", 9, "cannot read"),
];

#[test]
fn real_directories_are_listed(rt: HostRuntime) -> Result<(), Fail> {
    make_tree(&rt)?;
    let mut store = FsStore::new(rt);
    let wrong = wrong_rows(rt.alloc(), &mut store, REAL)?;
    assert!(rt; wrong.is_empty(), "{wrong}");
    fs::remove_dir_all(&rt, "bp_ports_list")?;
    Ok(())
}

/// The root is where the test runs. An entry that another test removes while it is listed can't be read.
#[test]
fn the_root_is_where_the_program_runs(rt: HostRuntime) -> Result<(), Fail> {
    make_folder(&rt, "bp_ports_root")?;
    let mut store = FsStore::new(rt);
    let found = shown(rt.alloc(), &mut store, "", u32::MAX)?;
    let is_listed = found.as_str().contains("bp_ports_root/ ");
    assert!(rt; is_listed || found.as_str() == "cannot read", "{found}");
    fs::remove_dir_all(&rt, "bp_ports_root")?;
    Ok(())
}

/// The system keeps its administrator out of no directory, so that one who runs the test as such sees the entry.
#[test]
fn a_directory_that_may_not_be_read_is_not_absent(rt: HostRuntime) -> Result<(), Fail> {
    make_folder(&rt, "bp_ports_shut")?;
    fs::write(&rt, "bp_ports_shut/a", b"".as_slice())?;
    fs::set_permissions(&rt, "bp_ports_shut", Permissions::from_mode(0))?;
    let mut store = FsStore::new(rt);
    let found = shown(rt.alloc(), &mut store, "bp_ports_shut", 9)?;
    assert!(rt;
        found.as_str() == "cannot read" || found.as_str() == "a ",
        "{found}"
    );
    fs::set_permissions(&rt, "bp_ports_shut", Permissions::from_mode(0o700))?;
    fs::remove_dir_all(&rt, "bp_ports_shut")?;
    Ok(())
}

//! A whole run over the files of the system.

use crate::built::WRITTEN;
use bp_ports::{FreeSink, FsStore};
use memory_runs::status_of;
use std::test::Fail;
use std::thread::Threads;
use std::{fs, io};

const FOLDER: &str = "run_tests_real";

const FILE: &str = "run_tests_real/Android.bp";

const OUT: &str = "run_tests_real/build.ninja";

const BUILD_IN_FOLDER: &str =
    "build -l run_tests_real/list -o run_tests_real/build.ninja -t android_arm64";

/// A new folder with a list and the file that it names.
fn make_tree(rt: &HostRuntime) -> io::Result<()> {
    let _ = fs::remove_dir_all(rt, FOLDER);
    fs::create_dir(rt, FOLDER)?;
    let list = "run_tests_real/Android.bp\n";
    fs::write(rt, "run_tests_real/list", list.as_bytes())?;
    let text = "cc_binary {\n    name: \"hello\",\n    srcs: [\"hello.c\"],\n}\n";
    fs::write(rt, FILE, text.as_bytes())
}

/// The status of a build, and whether OUT holds the text then.
fn end_of_build<R: Threads + Sync>(
    threads: &R,
    rt: &HostRuntime,
    store: &mut FsStore<HostRuntime>,
    text: &[u8],
) -> Result<(u8, bool), Fail> {
    let mut out = FreeSink::new(rt.alloc(), 0)?;
    let mut diag = FreeSink::new(rt.alloc(), 0)?;
    let status = status_of(
        threads,
        rt.alloc(),
        BUILD_IN_FOLDER,
        store,
        &mut out,
        &mut diag,
    )?;
    Ok((status, fs::read(rt, OUT)?.as_slice() == text))
}

/// The same of three builds: OUT isn't there, then it holds more than is written, and then the file is missing.
fn ends_of_builds<R: Threads + Sync>(
    threads: &R,
    rt: &HostRuntime,
    store: &mut FsStore<HostRuntime>,
    text: &[u8],
) -> Result<[(u8, bool); 3], Fail> {
    let first = end_of_build(threads, rt, store, text)?;
    let longer = vec![in rt.alloc(); b'x'; 9000]?;
    fs::write(rt, OUT, longer.as_slice())?;
    let second = end_of_build(threads, rt, store, text)?;
    fs::remove_file(rt, FILE)?;
    Ok([first, second, end_of_build(threads, rt, store, text)?])
}

#[test]
fn a_real_tree_is_built(rt: HostRuntime) -> Result<(), Fail> {
    make_tree(&rt)?;
    let mut store = FsStore::new(rt);
    let text = WRITTEN.replace(rt.alloc(), "hello.c", "run_tests_real/hello.c")?;
    let ends = ends_of_builds(&rt, &rt, &mut store, text.as_bytes())?;
    assert_eq!(rt; ends, [(0, true), (0, true), (1, true)]);
    assert_eq!(rt; fs::read_dir(&rt, FOLDER)?.count(), 2);
    fs::remove_dir_all(&rt, FOLDER)?;
    Ok(())
}

//! Stores and streams that fail.

use bp_faults::OutOfMemory;
use bp_ports::MemStore;
use memory_runs::{
    BUILD, DEMO_TREE, Ended, end_of, end_within, one_file, put, store_of, store_that_fails, tree_of,
};
use std::alloc::Global;
use std::str;
use std::test::Fail;
use std::thread::Threads;

const HELLO: &str = "cc_binary { name: \"hello\", srcs: [\"hello.c\"] }\n";

const TWO_FILES: &str =
    "@Android.bp\ncc_binary { name: \"hello\", srcs: [\"hello.c\"] }\n@a/Android.bp\n";

/// The number of the call of the store that fails, the status, and the line. The calls are the list, two files, OUT and
/// the journal, in this order.
const FAILING: &[(u32, u8, &str)] = &[
    (1, 3, "bpgen: cannot read list\n"),
    (2, 3, "bpgen: cannot read Android.bp\n"),
    (3, 3, "bpgen: cannot read a/Android.bp\n"),
    (4, 4, "bpgen: cannot write build.ninja\n"),
    (5, 4, "bpgen: cannot write j\n"),
];

// Whether that call was the last one, and the files are those that the ones before it left.
fn is_left_by(store: &MemStore, call: u32) -> bool {
    let is_kept = store.held("Android.bp") == Some(HELLO.as_bytes());
    let is_written = store.held("build.ninja").is_some() == (call == 5);
    store.calls() == call && is_kept && is_written && store.held("j").is_none()
}

// How a build whose call of this number fails ends, unless so.
fn other_end<R: Threads + Sync>(
    rt: &R,
    alloc: Global,
    call: u32,
    status: u8,
    line: &str,
) -> Result<Option<String>, OutOfMemory> {
    let words = "build -l list -o build.ninja -t android_arm64 --journal j";
    let mut store = store_that_fails(alloc, tree_of(alloc, TWO_FILES)?, call)?;
    let ended = end_of(rt, alloc, words, &mut store)?;
    ended.unless(alloc, ended.tells(status, line) && is_left_by(&store, call))
}

// The line of the first such build that ends otherwise, and how.
fn differing<R: Threads + Sync>(
    rt: &R,
    alloc: Global,
    cases: &[(u32, u8, &'static str)],
) -> Result<Option<(&'static str, String)>, OutOfMemory> {
    for (call, status, line) in cases {
        if let Some(came) = other_end(rt, alloc, *call, *status, line)? {
            return Ok(Some((*line, came)));
        }
    }
    Ok(None)
}

#[test]
fn failing_store(rt: HostRuntime) -> Result<(), Fail> {
    assert_eq!(rt; differing(&rt, rt.alloc(), FAILING)?, None);
    Ok(())
}

// What is written where no call fails, or nothing where the status isn't 0.
fn whole_text<R: Threads + Sync>(rt: &R, alloc: Global) -> Result<Vec<u8>, OutOfMemory> {
    let mut store = store_of(alloc, tree_of(alloc, TWO_FILES)?)?;
    match end_of(rt, alloc, BUILD, &mut store)?.status {
        0 => Ok(store.held("build.ninja").unwrap_or_default().to_vec(alloc)?),
        _ => Ok(Vec::new(alloc)),
    }
}

// Whether a build whose call of this number fails has this status, and the next one writes the text.
fn writes_next<R: Threads + Sync>(
    rt: &R,
    alloc: Global,
    call: u32,
    status: u8,
    text: &[u8],
) -> Result<bool, OutOfMemory> {
    let mut store = store_that_fails(alloc, tree_of(alloc, TWO_FILES)?, call)?;
    let first = end_of(rt, alloc, BUILD, &mut store)?.status;
    let next = end_of(rt, alloc, BUILD, &mut store)?.status;
    Ok((first, next) == (status, 0) && store.held("build.ninja") == Some(text))
}

// The number of the first call that leaves another store.
fn other_call<R: Threads + Sync>(
    rt: &R,
    alloc: Global,
    cases: &[(u32, u8)],
    text: &[u8],
) -> Result<Option<u32>, OutOfMemory> {
    for (call, status) in cases {
        if !writes_next(rt, alloc, *call, *status, text)? {
            return Ok(Some(*call));
        }
    }
    Ok(None)
}

/// The number of a call that fails, and the status.
const CALLS: &[(u32, u8)] = &[(1, 3), (2, 3), (3, 3), (4, 4)];

/// A call that fails leaves a store over which the next call does the whole job.
#[test]
fn call_after_a_failing_one(rt: HostRuntime) -> Result<(), Fail> {
    let text = whole_text(&rt, rt.alloc())?;
    assert!(rt; !text.is_empty());
    assert_eq!(rt; other_call(&rt, rt.alloc(), CALLS, text.as_slice())?, None);
    Ok(())
}

// The line and the column that a fault's line tells of the file.
fn place_told(said: &str) -> Option<(usize, usize)> {
    let mut parts = said.strip_prefix("demo/Android.bp:")?.split(':');
    let line = parts.next()?.parse::<usize>().ok()?;
    let column = parts.next()?.parse::<usize>().ok()?;
    Some((line, column))
}

// Whether a fault's line tells a place that isn't behind the end of the text.
fn is_told_within(said: &[u8], text: &str) -> bool {
    let Ok(said) = str::from_utf8(said) else {
        return false;
    };
    let Some((line, column)) = place_told(said) else {
        return false;
    };
    let lines = text.split('\n').count();
    let last = text.rsplit('\n').next().unwrap_or(text);
    line < lines || line == lines && column.saturating_sub(1) <= last.chars().count()
}

// Whether a call has written a text, or told a fault within the file.
fn is_well(ended: &Ended, is_written: bool, text: &str) -> bool {
    match ended.status {
        0 => is_written && ended.said.is_empty(),
        1 => !is_written && is_told_within(ended.said.as_slice(), text),
        _ => false,
    }
}

// Whether a text that is all of the file gives a text, or a fault within it.
fn ends_well<R: Threads + Sync>(rt: &R, alloc: Global, text: &str) -> Result<bool, OutOfMemory> {
    let mut tree = one_file(alloc, "list", b"demo/Android.bp\n")?;
    put(alloc, "demo/Android.bp", text.as_bytes(), &mut tree)?;
    let mut store = store_of(alloc, tree)?;
    let ended = end_of(rt, alloc, BUILD, &mut store)?;
    Ok(is_well(&ended, store.held("build.ninja").is_some(), text))
}

// The number of bytes of the first prefix that doesn't end well.
fn bad_prefix<R: Threads + Sync>(
    rt: &R,
    alloc: Global,
    text: &str,
) -> Result<Option<usize>, OutOfMemory> {
    let mut prefix = String::new(alloc);
    for c in text.chars() {
        if !ends_well(rt, alloc, prefix.as_str())? {
            return Ok(Some(prefix.len()));
        }
        prefix.push(c)?;
    }
    Ok((!ends_well(rt, alloc, prefix.as_str())?).then_some(prefix.len()))
}

/// Each prefix of a file is built, or has a fault within it.
#[test]
fn prefixes_of_a_file(rt: HostRuntime) -> Result<(), Fail> {
    let text = DEMO_TREE.trim_start_matches("@demo/Android.bp\n");
    assert_eq!(rt; bad_prefix(&rt, rt.alloc(), text)?, None);
    Ok(())
}

// How the call over a list of a file that isn't there ends, where the streams have so much room, unless it tells the
// line.
fn other_than_missing<R: Threads + Sync>(
    rt: &R,
    alloc: Global,
    room: u32,
    line: &str,
) -> Result<Option<String>, OutOfMemory> {
    let tree = one_file(alloc, "list", b"Android.bp\n")?;
    let mut store = store_of(alloc, tree)?;
    let ended = end_within(rt, alloc, BUILD, &mut store, (room, room))?;
    ended.unless(alloc, ended.tells(1, line))
}

/// A message without room is put in half, and the status stays.
#[test]
fn files_that_are_not_there(rt: HostRuntime) -> Result<(), Fail> {
    for (room, line) in [
        (300, "Android.bp:1:1: error 31: no such file\n"),
        (20, "Android.bp:1:1: err"),
    ] {
        assert_eq!(rt;
            other_than_missing(&rt, rt.alloc(), room, line)?,
            None,
            "{line}"
        );
    }
    let mut store = store_of(rt.alloc(), Vec::new(rt.alloc()))?;
    let ended = end_of(&rt, rt.alloc(), BUILD, &mut store)?;
    assert!(rt; ended.tells(1, "list:1:1: error 31: no such file\n"));
    Ok(())
}

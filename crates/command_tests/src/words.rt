//! Words of the command line, those that are accepted and those that aren't.

use bp_faults::OutOfMemory;
use bp_ports::MemStore;
use memory_runs::{end_of, store_of, tree_of};
use std::alloc::Global;
use std::test::Fail;
use std::thread::Threads;

const TREE: &str = "@Android.bp\ncc_binary { name: \"hello\", srcs: [\"hello.c\"] }\n";

/// Words that give no configuration.
const REFUSED: &[&str] = &[
    "",
    "build",
    "build -l list",
    "build -l list -o o -j 0",
    "build -l list -o o -j 65",
    "build -l list -o o -j 00000000004",
    "build -l list -o x --journal x",
    "build -l list -l list -o o",
    "build -l list --list=list -o o",
    "build -l list -o list",
    "build --list=list -olist",
    "build -l -list -o o",
    "build -l list -o  -t android_arm64",
    "build -l list -o o -t mips",
    "build -l list -o o -t android_arm,android_arm",
    "build -l list -o o -a link",
    "build -l list -o o x",
    "graph -l list -a alpha",
    "graph -l list",
    "synth --seed 4294967296 --modules 1",
    "synth --seed 1",
    "fmt -i Android.bp",
    "fmt -l Android.bp -o o",
    "edit -i Android.bp -o o -m hello",
    "edit -i Android.bp -o o -m hello -p 1st",
    "--help",
];

/// Words that do, each in another spelling of `build`.
const ACCEPTED: &[&str] = &[
    "build -l list -o o -j4 --targets=android_arm",
    "build --jobs 04 -oo -t android_arm -llist",
    "build --out=o --list list --targets android_arm --jobs=64",
    "build -o o -l list -t android_arm",
];

/// What is told of words that give no configuration.
const USAGE: &str = "usage: bpgen build|replay|graph|synth|fmt|edit OPTIONS\n";

// How words end, unless they give no configuration, and the store isn't called.
fn other_than_refused<R: Threads + Sync>(
    rt: &R,
    alloc: Global,
    words: &str,
) -> Result<Option<String>, OutOfMemory> {
    let mut store = store_of(alloc, tree_of(alloc, TREE)?)?;
    let ended = end_of(rt, alloc, words, &mut store)?;
    ended.unless(alloc, ended.shows(2, "", USAGE) && store.calls() == 0)
}

// The first words that aren't refused, and how they end.
fn not_refused<R: Threads + Sync>(
    rt: &R,
    alloc: Global,
) -> Result<Option<(&'static str, String)>, OutOfMemory> {
    for words in REFUSED {
        if let Some(came) = other_than_refused(rt, alloc, words)? {
            return Ok(Some((*words, came)));
        }
    }
    Ok(None)
}

// Whether the file of the path `o` is the one that builds TREE for android_arm.
fn holds_build(store: &MemStore) -> bool {
    let text = store.held("o").unwrap_or_default();
    text.ends_with(b"/android_arm/bin/hello\ndefault out/all\n")
}

// How words end, unless they build the tree, and nothing is told.
fn other_than_accepted<R: Threads + Sync>(
    rt: &R,
    alloc: Global,
    words: &str,
) -> Result<Option<String>, OutOfMemory> {
    let mut store = store_of(alloc, tree_of(alloc, TREE)?)?;
    let ended = end_of(rt, alloc, words, &mut store)?;
    ended.unless(alloc, ended.tells(0, "") && holds_build(&store))
}

// The first words that aren't accepted, and how they end.
fn not_accepted<R: Threads + Sync>(
    rt: &R,
    alloc: Global,
) -> Result<Option<(&'static str, String)>, OutOfMemory> {
    for words in ACCEPTED {
        if let Some(came) = other_than_accepted(rt, alloc, words)? {
            return Ok(Some((*words, came)));
        }
    }
    Ok(None)
}

#[test]
fn words(rt: HostRuntime) -> Result<(), Fail> {
    assert_eq!(rt; not_refused(&rt, rt.alloc())?, None);
    assert_eq!(rt; not_accepted(&rt, rt.alloc())?, None);
    Ok(())
}

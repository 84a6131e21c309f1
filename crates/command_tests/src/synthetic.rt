//! Synthetic trees, and journals.

use bp_faults::OutOfMemory;
use memory_runs::{end_of, store_of, tree_of};
use std::alloc::Global;
use std::test::Fail;
use std::thread::Threads;

// The summary of a synthetic tree, for the words behind `synth`. The store isn't touched.
fn summary<R: Threads + Sync>(rt: &R, alloc: Global, words: &str) -> Result<Vec<u8>, OutOfMemory> {
    let mut store = store_of(alloc, Vec::new(alloc))?;
    let words = format!(in alloc; "synth {words}")?;
    let ended = end_of(rt, alloc, words.as_str(), &mut store)?;
    if ended.status == 0 && store.calls() == 0 {
        Ok(ended.out)
    } else {
        Ok(Vec::new(alloc))
    }
}

// Whether a summary begins with these lines.
fn begins<R: Threads + Sync>(
    rt: &R,
    alloc: Global,
    words: &str,
    lines: &str,
) -> Result<bool, OutOfMemory> {
    Ok(summary(rt, alloc, words)?.starts_with(lines.as_bytes()))
}

// Whether the summaries are one text, and what it begins with stands there.
fn are_one<R: Threads + Sync>(
    rt: &R,
    alloc: Global,
    (words, others): (&str, &str),
    lines: &str,
) -> Result<bool, OutOfMemory> {
    let one = summary(rt, alloc, words)?;
    let other = summary(rt, alloc, others)?;
    Ok(one.as_slice() == other.as_slice() && one.starts_with(lines.as_bytes()))
}

#[test]
fn synthetic(rt: HostRuntime) -> Result<(), Fail> {
    let lines =
        "modules 2\nnodes after link 4\nedges after plugins 2\nnodes 4\nstatements 9\nbytes ";
    assert!(rt; begins(&rt, rt.alloc(), "--seed 1 --modules 2", lines)?);
    let words = (
        "--seed 7 --modules 2000 -j 8",
        "--modules=2000 --seed=7 -j1",
    );
    let lines = "modules 2000\nnodes after link 3969\nedges after plugins 7746\n";
    assert!(rt; are_one(&rt, rt.alloc(), words, lines)?);
    Ok(())
}

/// A tree, as `tree_of` reads it, and the journal of its passes by one worker.
const JOURNALS: &[(&str, &str)] = &[
    ("", ""),
    (
        "@Android.bp\ncc_binary { name: \"hello\", srcs: [\"hello.c\"] }\n",
        "1 0\n2 0\n3 0\n4 0\n5 0\n6 0\n7 0\n8 0\n9 0\n10 0\n11 0\n12 0\n13 0\n",
    ),
];

// How a build of a tree ends, with its journal, unless this is the journal.
fn other_journal<R: Threads + Sync>(
    rt: &R,
    alloc: Global,
    tree: &str,
    journal: &str,
) -> Result<Option<String>, OutOfMemory> {
    let mut store = store_of(alloc, tree_of(alloc, tree)?)?;
    let words = "build -l list -o build.ninja -t android_arm64 --journal j";
    let mut ended = end_of(rt, alloc, words, &mut store)?;
    let is_written = store.held("build.ninja").is_some();
    let held = store.held("j");
    let is_right = ended.status == 0 && is_written && held == Some(journal.as_bytes());
    ended.out.extend_from_slice(held.unwrap_or_default())?;
    ended.unless(alloc, is_right)
}

// The first tree that isn't built so, and what came.
fn differing<R: Threads + Sync>(
    rt: &R,
    alloc: Global,
    cases: &[(&'static str, &str)],
) -> Result<Option<(&'static str, String)>, OutOfMemory> {
    for (tree, journal) in cases {
        if let Some(came) = other_journal(rt, alloc, tree, journal)? {
            return Ok(Some((*tree, came)));
        }
    }
    Ok(None)
}

#[test]
fn journals(rt: HostRuntime) -> Result<(), Fail> {
    assert_eq!(rt; differing(&rt, rt.alloc(), JOURNALS)?, None);
    Ok(())
}

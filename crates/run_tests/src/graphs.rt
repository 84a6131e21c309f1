//! Graphs after the first mutators, as text on the output.

use bp_faults::OutOfMemory;
use memory_runs::{Ended, end_within, store_of, tree_of};
use std::alloc::Global;
use std::test::Fail;
use std::thread::Threads;

/// A tree, as `tree_of` reads it, the last mutator, and what is put on the output, or the line of the fault.
const GRAPHS: &[(&str, &str, &str)] = &[
    (
        "@Android.bp\ncc_binary { name: \"b\", defaults: [\"d\"] }\n",
        "defaults_deps",
        "Android.bp:1:35: error 21: missing module: d\n",
    ),
    (
        "@Android.bp\ncc_defaults { name: \"d\", defaults: [\"d\"] }\n",
        "defaults_deps",
        "Android.bp:1:37: error 23: dependency cycle: d -> d\n",
    ),
    (
        "@Android.bp\ncc_binary { name: \"b\", defaults: [\"d\"] }\ncc_defaults { name: \"d\", defaults: [\"e\"] }\n\
            cc_defaults { name: \"e\", defaults: [\"d\"] }\n",
        "defaults",
        "Android.bp:2:37: error 23: dependency cycle: d -> e -> d\n",
    ),
    (
        "@Android.bp\ncc_binary { name: \"b\", defaults: [\"d\", \"e\", \"d\"] }\n@a/Android.bp\n\
            cc_defaults { name: \"e\" }\ncc_defaults { name: \"d\" }\n",
        "defaults_deps",
        "0 b -\n  defaults 2\n  defaults 1\n  defaults 2\n1 e -\n2 d -\n",
    ),
    ("@Android.bp\nlicense { name: \"x\" }\n", "defaults", ""),
];

const HOST_TOO: &str =
    "@Android.bp\ncc_binary { name: \"b\", host_supported: true, compile_multilib: \"both\" }\n";

/// The words behind the list, and what is put on the output, or nothing where they give no configuration.
const TARGETS: &[(&str, &str)] = &[
    (
        "-a arch",
        "0 b android_arm64\n1 b android_arm\n2 b linux_glibc_x86_64\n",
    ),
    (
        "-t linux_glibc_x86_64,android_arm -a arch",
        "0 b linux_glibc_x86_64\n1 b android_arm\n",
    ),
    ("-t android_arm,linux_glibc_x86_64,android_arm -a arch", ""),
    ("-t android_arm,android_arm -a arch", ""),
    ("-t android_arm,android_mips -a arch", ""),
    ("-t android_arm, -a arch", ""),
    ("-t  -a arch", ""),
];

// How `graph` ends over a tree, for the words behind the list, where the output has so much room.
fn shown<R: Threads + Sync>(
    rt: &R,
    alloc: Global,
    tree: &str,
    words: &str,
    room: u32,
) -> Result<Ended, OutOfMemory> {
    let mut store = store_of(alloc, tree_of(alloc, tree)?)?;
    let words = format!(in alloc; "graph -l list {words}")?;
    end_within(rt, alloc, words.as_str(), &mut store, (room, 300))
}

// How `graph` ends over a tree, unless the graph after a mutator is this text, or the line of its fault is.
fn other_graph<R: Threads + Sync>(
    rt: &R,
    alloc: Global,
    tree: &str,
    after: &str,
    text: &str,
) -> Result<Option<String>, OutOfMemory> {
    let words = format!(in alloc; "-t android_arm64 -a {after}")?;
    let ended = shown(rt, alloc, tree, words.as_str(), 300)?;
    ended.unless(alloc, ended.shows(0, text, "") || ended.shows(1, "", text))
}

// The first tree that doesn't give what it should, and what came.
fn differing<R: Threads + Sync>(
    rt: &R,
    alloc: Global,
    cases: &[(&'static str, &str, &str)],
) -> Result<Option<(&'static str, String)>, OutOfMemory> {
    for (tree, after, text) in cases {
        if let Some(came) = other_graph(rt, alloc, tree, after, text)? {
            return Ok(Some((*tree, came)));
        }
    }
    Ok(None)
}

#[test]
fn graphs_are_shown(rt: HostRuntime) -> Result<(), Fail> {
    assert_eq!(rt; differing(&rt, rt.alloc(), GRAPHS)?, None);
    Ok(())
}

// How `graph` ends over HOST_TOO for some words, unless it is shown so, or they are faulty and the text is empty.
fn other_for<R: Threads + Sync>(
    rt: &R,
    alloc: Global,
    words: &str,
    text: &str,
) -> Result<Option<String>, OutOfMemory> {
    let ended = shown(rt, alloc, HOST_TOO, words, 300)?;
    let is_shown = ended.out.as_slice() == text.as_bytes();
    let status = if text.is_empty() { 2 } else { 0 };
    let is_right = is_shown && ended.status == status && ended.said.is_empty() == (status == 0);
    ended.unless(alloc, is_right)
}

// The first words for which it isn't shown so, and what came.
fn other_words<R: Threads + Sync>(
    rt: &R,
    alloc: Global,
    cases: &[(&'static str, &str)],
) -> Result<Option<(&'static str, String)>, OutOfMemory> {
    for (words, text) in cases {
        if let Some(came) = other_for(rt, alloc, words, text)? {
            return Ok(Some((*words, came)));
        }
    }
    Ok(None)
}

#[test]
fn graphs_for_targets(rt: HostRuntime) -> Result<(), Fail> {
    assert_eq!(rt; other_words(&rt, rt.alloc(), TARGETS)?, None);
    Ok(())
}

/// The put fails: the output holds the first half of the text that fits, and the files are as they were.
#[test]
fn output_without_room(rt: HostRuntime) -> Result<(), Fail> {
    let tree = "@Android.bp\ncc_binary { name: \"b\" }\n";
    let ended = shown(&rt, rt.alloc(), tree, "-a defaults", 3)?;
    let line = "bpgen: cannot write standard output\n";
    let is_right = ended.shows(4, "0 b", line);
    assert_eq!(rt; ended.unless(rt.alloc(), is_right)?, None);
    Ok(())
}

//! Passes on several workers: they run side by side, and their number makes no difference to the text.

use bp_faults::{NodeId, OutOfMemory};
use bp_ports::{MemSink, MemStore, PairGate};
use bp_run::run;
use memory_runs::{end_of, store_of, tree_of, words_of};
use std::alloc::Global;
use std::test::Fail;
use std::thread::Threads;

const TWO_NODES: &str = r#"@Android.bp
filegroup { name: "a" }
filegroup { name: "b" }
"#;

const DIAMOND: &str = r#"@Android.bp
cc_binary { name: "app", srcs: ["app.c"], static_libs: ["l", "r"] }
cc_library_static { name: "l", srcs: ["l.c"], static_libs: ["base"] }
cc_library_static { name: "r", srcs: ["r.c"], static_libs: ["base"] }
cc_library_static { name: "base", srcs: ["base.c"] }
"#;

/// A tree of which every pass makes something. Its nodes 0 and 1 are of `a` and `b`, or two variants of `a`, so that
/// neither depends on the other in any pass.
const BUSY: &str = r#"@Android.bp
cc_test { name: "a", defaults: ["like"], srcs: ["a.c", "c.c"] }
cc_test { name: "b", defaults: ["like"], srcs: ["b.c", "c.c"] }
cc_defaults {
    name: "like",
    test_per_src: true,
    vendor_available: true,
    sanitize: { address: true },
    min_sdk_version: "29",
    static_libs: ["base"],
}
cc_library_static { name: "base", vendor_available: true, srcs: ["base.c"] }
cc_library_shared { name: "skin", vendor_available: true, srcs: ["skin.c"], plugin_of: ["a", "b"] }
"#;

/// Words, a tree, and how many passes a run for them has.
type Passes = (&'static str, &'static str, u32);

const RUNS: &[Passes] = &[
    ("build -l list -o build.ninja -j 2", TWO_NODES, 13),
    (
        "build -l list -o build.ninja -j 2 -t android_arm64",
        BUSY,
        13,
    ),
    ("graph -l list -a info -j 2 -t android_arm64", BUSY, 12),
    ("synth --seed 7 --modules 8 -j 2", "", 13),
];

// The status of a run for these words over a tree, unless it is 0 and one node of a pass enters while another is held.
// The other is held for so many turns at most that a run which never brings both together ends soon.
fn status_unless_met<R: Threads + Sync>(
    rt: &R,
    alloc: Global,
    (words, tree, pass): Passes,
    (held, other): (u32, u32),
) -> Result<Option<u8>, OutOfMemory> {
    let gate = PairGate::new((pass, NodeId(held)), (pass, NodeId(other)), 1 << 18);
    let list = words_of(alloc, words)?;
    let mut store = store_of(alloc, tree_of(alloc, tree)?)?;
    let mut out = MemSink::new(alloc, 1 << 16, Vec::new(alloc))?;
    let mut diag = MemSink::new(alloc, 300, Vec::new(alloc))?;
    let status = run(rt, alloc, &list, &mut store, &mut out, &mut diag, &gate);
    Ok((status != 0 || !gate.met()).then_some(status))
}

// The status of the last of 64 runs, unless one of nodes 0 and 1 enters in one of them while the other is held: a run
// may bring it before that.
fn status_unless_meeting<R: Threads + Sync>(
    rt: &R,
    alloc: Global,
    run: Passes,
) -> Result<Option<u8>, OutOfMemory> {
    let mut last = None;
    for turn in 0..64 {
        let pair = if turn % 2 == 0 { (0, 1) } else { (1, 0) };
        last = status_unless_met(rt, alloc, run, pair)?;
        if last.is_none() {
            break;
        }
    }
    Ok(last)
}

// The first pass of a run in which they never meet, with the words and the tree, and the status.
fn pass_alone<R: Threads + Sync>(
    rt: &R,
    alloc: Global,
    (words, tree, last): Passes,
) -> Result<Option<(Passes, u8)>, OutOfMemory> {
    for pass in 1..=last {
        let run = (words, tree, pass);
        if let Some(status) = status_unless_meeting(rt, alloc, run)? {
            return Ok(Some((run, status)));
        }
    }
    Ok(None)
}

#[test]
fn gates_of_each_pass(rt: HostRuntime) -> Result<(), Fail> {
    for case in RUNS {
        assert_eq!(rt; pass_alone(&rt, rt.alloc(), *case)?, None);
    }
    Ok(())
}

/// Words that build one tree into three files, each by another number of workers.
const BUILDS: &[&str] = &[
    "build -l list -o one -j 1",
    "build -l list -o two -j 2",
    "build -l list -o many -j 64",
];

// The first words that don't end with status 0.
fn refused<R: Threads + Sync>(
    rt: &R,
    alloc: Global,
    store: &mut MemStore,
) -> Result<Option<&'static str>, OutOfMemory> {
    for words in BUILDS {
        if end_of(rt, alloc, words, store)?.status != 0 {
            return Ok(Some(*words));
        }
    }
    Ok(None)
}

// Whether the three files hold one text.
fn holds_one_text(store: &MemStore) -> bool {
    let one = store.held("one");
    one.is_some() && one == store.held("two") && one == store.held("many")
}

#[test]
fn any_number_of_workers(rt: HostRuntime) -> Result<(), Fail> {
    let mut store = store_of(rt.alloc(), tree_of(rt.alloc(), DIAMOND)?)?;
    assert_eq!(rt; refused(&rt, rt.alloc(), &mut store)?, None);
    assert!(rt; holds_one_text(&store));
    Ok(())
}

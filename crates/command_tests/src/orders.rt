//! Replays along order files, of four modules of which one is needed by two ways.

use bp_faults::{OutOfMemory, Text};
use bp_ports::MemStore;
use memory_runs::{BUILD, end_of, put, store_of, store_that_fails, tree_of};
use std::alloc::Global;
use std::test::Fail;
use std::thread::Threads;

const TREE: &str = "@Android.bp\n\
    cc_binary { name: \"app\", srcs: [\"app.c\"], static_libs: [\"l\", \"r\"] }\n\
    cc_library_static { name: \"l\", srcs: [\"l.c\"], static_libs: [\"base\"] }\n\
    cc_library_static { name: \"r\", srcs: [\"r.c\"], static_libs: [\"base\"] }\n\
    cc_library_static { name: \"base\", srcs: [\"base.c\"] }\n";

const REPLAY: &str = "replay -l list -o build.ninja --order order.txt -t android_arm64";

/// The nodes of the first six passes, of those that go up from what is needed, and of those that go down.
type Nodes = (&'static str, &'static str, &'static str);

const FIRST: Nodes = ("0123", "3120", "0123");

/// Three legal orders.
const LEGAL: &[Nodes] = &[FIRST, ("0123", "3210", "0213"), ("3210", "3120", "0123")];

// The lines of a pass.
fn push_pass(lines: &mut String, pass: u32, nodes: &str) -> Result<(), OutOfMemory> {
    for node in nodes.chars() {
        writeln!(lines, "{pass} {node}")?;
    }
    Ok(())
}

// The lines of the passes up to the last.
fn order(alloc: Global, (early, up, down): Nodes, last: u32) -> Result<String, OutOfMemory> {
    let mut lines = String::new(alloc);
    for pass in 1..=last {
        let nodes = match pass {
            1..=6 => early,
            9 | 11 => down,
            _ => up,
        };
        push_pass(&mut lines, pass, nodes)?;
    }
    Ok(lines)
}

// A tree, and an order file of these bytes.
fn tree_with(alloc: Global, text: &str, order: &[u8]) -> Result<Vec<(Text, Vec<u8>)>, OutOfMemory> {
    let mut tree = tree_of(alloc, text)?;
    put(alloc, "order.txt", order, &mut tree)?;
    Ok(tree)
}

// How a replay over these files ends, unless it is refused with this line, and OUT isn't written.
fn other_than_refused<R: Threads + Sync>(
    rt: &R,
    alloc: Global,
    tree: Vec<(Text, Vec<u8>)>,
    line: &str,
) -> Result<Option<String>, OutOfMemory> {
    let mut store = store_of(alloc, tree)?;
    let ended = end_of(rt, alloc, REPLAY, &mut store)?;
    let is_unwritten = store.held("build.ninja").is_none();
    ended.unless(alloc, ended.tells(1, line) && is_unwritten)
}

// How a replay along the order ends, unless it is refused with this line.
fn other_than_order_refused<R: Threads + Sync>(
    rt: &R,
    alloc: Global,
    order: &str,
    line: &str,
) -> Result<Option<String>, OutOfMemory> {
    let tree = tree_with(alloc, TREE, order.as_bytes())?;
    other_than_refused(rt, alloc, tree, line)
}

/// First lines that no order has, and how a fault shows them.
const BAD_LINES: &[(&str, &str)] = &[
    ("1 9\n", ": 1 9"),
    ("01 0\n", ": 01 0"),
    (" 1 0\n", ":  1 0"),
    ("1 0\r\n", ": 1 0?"),
    ("\n", ""),
    ("14 0\n", ": 14 0"),
];

// The first line of these that isn't refused so, and what came.
fn other_line<R: Threads + Sync>(
    rt: &R,
    alloc: Global,
    cases: &[(&'static str, &str)],
) -> Result<Option<(&'static str, String)>, OutOfMemory> {
    for (order, shown) in cases {
        let told = format!(in alloc; "order.txt:1:1: error 35: not ready{shown}\n")?;
        if let Some(came) = other_than_order_refused(rt, alloc, order, told.as_str())? {
            return Ok(Some((*order, came)));
        }
    }
    Ok(None)
}

#[test]
fn bad_first_lines(rt: HostRuntime) -> Result<(), Fail> {
    assert_eq!(rt; other_line(&rt, rt.alloc(), BAD_LINES)?, None);
    Ok(())
}

// What is written for some words over a store, or nothing where the status isn't 0.
fn written<R: Threads + Sync>(
    rt: &R,
    alloc: Global,
    words: &str,
    store: &mut MemStore,
) -> Result<Vec<u8>, OutOfMemory> {
    match end_of(rt, alloc, words, store)?.status {
        0 => Ok(store.held("build.ninja").unwrap_or_default().to_vec(alloc)?),
        _ => Ok(Vec::new(alloc)),
    }
}

// What a build without an order writes.
fn built<R: Threads + Sync>(rt: &R, alloc: Global) -> Result<Vec<u8>, OutOfMemory> {
    let mut store = store_of(alloc, tree_of(alloc, TREE)?)?;
    written(rt, alloc, BUILD, &mut store)
}

// What a replay along an order writes.
fn replayed<R: Threads + Sync>(
    rt: &R,
    alloc: Global,
    nodes: Nodes,
) -> Result<Vec<u8>, OutOfMemory> {
    let lines = order(alloc, nodes, 13)?;
    let mut store = store_of(alloc, tree_with(alloc, TREE, lines.as_bytes())?)?;
    written(rt, alloc, REPLAY, &mut store)
}

// The nodes of the first order along which something else is written.
fn other_order<R: Threads + Sync>(
    rt: &R,
    alloc: Global,
    text: &[u8],
) -> Result<Option<Nodes>, OutOfMemory> {
    for nodes in LEGAL {
        if replayed(rt, alloc, *nodes)?.as_slice() != text {
            return Ok(Some(*nodes));
        }
    }
    Ok(None)
}

#[test]
fn diamond(rt: HostRuntime) -> Result<(), Fail> {
    let built = built(&rt, rt.alloc())?;
    assert!(rt; !built.is_empty());
    let other = other_order(&rt, rt.alloc(), built.as_slice())?;
    assert!(rt; other.is_none());
    Ok(())
}

// So many binaries, each with a library of its own.
fn many_modules(alloc: Global, pairs: u32) -> Result<String, OutOfMemory> {
    let mut tree = String::from_str(alloc, "@Android.bp\n")?;
    for n in 0..pairs {
        writeln!(
            tree,
            "cc_binary {{ name: \"a{n}\", static_libs: [\"l{n}\"] }}"
        )?;
        writeln!(tree, "cc_library_static {{ name: \"l{n}\" }}")?;
    }
    Ok(tree)
}

// How many lines the journal of a build has, and whether a replay along it writes the same text.
fn replay_of_journal<R: Threads + Sync>(
    rt: &R,
    alloc: Global,
    tree: &str,
) -> Result<(usize, bool), OutOfMemory> {
    let mut store = store_of(alloc, tree_of(alloc, tree)?)?;
    let words = "build -l list -o build.ninja -t android_arm64 -j 2 --journal order.txt";
    let built = written(rt, alloc, words, &mut store)?;
    let journal = store.held("order.txt").unwrap_or_default();
    let lines = journal.iter().filter(|byte| **byte == b'\n').count();
    let replay = "replay -l list -o again.ninja --order order.txt -t android_arm64";
    let ended = end_of(rt, alloc, replay, &mut store)?;
    let is_same = !built.is_empty() && store.held("again.ninja") == Some(built.as_slice());
    Ok((lines, is_same && ended.tells(0, "")))
}

/// 13 lines a module, one for each pass.
#[test]
fn long_journal(rt: HostRuntime) -> Result<(), Fail> {
    let tree = many_modules(rt.alloc(), 500)?;
    assert_eq!(rt;
        replay_of_journal(&rt, rt.alloc(), tree.as_str())?,
        (13_000, true)
    );
    Ok(())
}

/// The last of the passes whose lines come first, the lines behind them, and the line of the fault.
const ILLEGAL: &[(u32, &str, &str)] = &[
    (6, "7 0\n", "order.txt:25:1: error 35: not ready: 7 0\n"),
    (6, "", "order.txt:25:1: error 36: order ends early\n"),
    (0, "1 0\n1 0\n", "order.txt:2:1: error 35: not ready: 1 0\n"),
    (13, "13 0\n", "order.txt:53:1: error 35: not ready: 13 0\n"),
];

// The first line of a fault of these that isn't told so, and what came.
fn untold<R: Threads + Sync>(
    rt: &R,
    alloc: Global,
    cases: &[(u32, &str, &'static str)],
) -> Result<Option<(&'static str, String)>, OutOfMemory> {
    for (last, behind, told) in cases {
        let mut lines = order(alloc, FIRST, *last)?;
        lines.push_str(behind)?;
        if let Some(came) = other_than_order_refused(rt, alloc, lines.as_str(), told)? {
            return Ok(Some((*told, came)));
        }
    }
    Ok(None)
}

#[test]
fn illegal_orders(rt: HostRuntime) -> Result<(), Fail> {
    assert_eq!(rt; untold(&rt, rt.alloc(), ILLEGAL)?, None);
    Ok(())
}

const MISSING: &str = "@Android.bp\ncc_binary { name: \"a\", static_libs: [\"b\"] }";

/// A tree, its order file where there is one, and the line of the first of its two faults: of the list, of the order
/// file as a whole, of the tree, of a mutator, and of a line of the order.
const FAULTS: &[(&str, Option<&str>, &str)] = &[
    (
        "@../Android.bp\n",
        None,
        "list:1:1: error 33: bad path in list: ../Android.bp\n",
    ),
    (
        "@Android.bp\nm",
        None,
        "order.txt:1:1: error 31: no such file\n",
    ),
    (
        "@Android.bp\nm",
        Some(""),
        "Android.bp:1:2: error 7: unexpected token: end of file\n",
    ),
    (
        MISSING,
        Some("1 0\n2 0\n3 0\n4 0\n5 0\n6 0\n"),
        "Android.bp:1:38: error 21: missing module: b\n",
    ),
    (
        MISSING,
        Some("1 0\n2 0\n3 0\n4 0\n5 0\n"),
        "order.txt:6:1: error 36: order ends early\n",
    ),
];

// How a replay over a tree and its order file ends, unless it is refused with this line.
fn other_than_replay_refused<R: Threads + Sync>(
    rt: &R,
    alloc: Global,
    text: &str,
    order: Option<&str>,
    line: &str,
) -> Result<Option<String>, OutOfMemory> {
    let tree = match order {
        Some(order) => tree_with(alloc, text, order.as_bytes())?,
        None => tree_of(alloc, text)?,
    };
    other_than_refused(rt, alloc, tree, line)
}

#[test]
fn faults_before_an_order(rt: HostRuntime) -> Result<(), Fail> {
    for (tree, order, line) in FAULTS {
        let came = other_than_replay_refused(&rt, rt.alloc(), tree, *order, line)?;
        assert_eq!(rt; came, None, "{line}");
    }
    Ok(())
}

/// How many bytes an order file of one line has, at the limit and one beyond it, and the line of the fault.
const LONG: &[(usize, &str)] = &[
    (
        1 << 26,
        "order.txt:1:1: error 35: not ready: \
            11111111111111111111111111111111111111111111111111111111111111111111111111111111\n",
    ),
    (
        (1 << 26) + 1,
        "order.txt:1:1: error 32: file is too large\n",
    ),
];

// How a replay along an order file of so many bytes ends, unless it is refused with this line.
fn other_than_long_refused<R: Threads + Sync>(
    rt: &R,
    alloc: Global,
    count: usize,
    line: &str,
) -> Result<Option<String>, OutOfMemory> {
    let order = vec![in alloc; b'1'; count]?;
    let tree = tree_with(alloc, TREE, order.as_slice())?;
    other_than_refused(rt, alloc, tree, line)
}

#[test]
fn order_files_at_the_limit_and_beyond(rt: HostRuntime) -> Result<(), Fail> {
    for (count, line) in LONG {
        assert_eq!(rt;
            other_than_long_refused(&rt, rt.alloc(), *count, line)?,
            None,
            "{line}"
        );
    }
    Ok(())
}

/// The number of the call of the store that fails, the status, and the line. The calls are the list, the file that it
/// names, the order file and OUT, in this order.
const FAILING: &[(u32, u8, &str)] = &[
    (1, 3, "bpgen: cannot read list\n"),
    (2, 3, "bpgen: cannot read Android.bp\n"),
    (3, 3, "bpgen: cannot read order.txt\n"),
    (4, 4, "bpgen: cannot write build.ninja\n"),
];

// How a legal replay whose call of this number fails ends, unless so, and without OUT.
fn other_than_failed<R: Threads + Sync>(
    rt: &R,
    alloc: Global,
    call: u32,
    status: u8,
    line: &str,
) -> Result<Option<String>, OutOfMemory> {
    let lines = order(alloc, FIRST, 13)?;
    let tree = tree_with(alloc, TREE, lines.as_bytes())?;
    let mut store = store_that_fails(alloc, tree, call)?;
    let ended = end_of(rt, alloc, REPLAY, &mut store)?;
    let is_last = store.calls() == call;
    let is_unwritten = store.held("build.ninja").is_none();
    ended.unless(alloc, is_last && ended.tells(status, line) && is_unwritten)
}

#[test]
fn failing_store(rt: HostRuntime) -> Result<(), Fail> {
    for (call, status, line) in FAILING {
        assert_eq!(rt;
            other_than_failed(&rt, rt.alloc(), *call, *status, line)?,
            None,
            "{line}"
        );
    }
    Ok(())
}

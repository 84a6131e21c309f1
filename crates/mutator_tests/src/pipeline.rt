//! The graph after some mutators as text, and what is generated and replayed of a small tree.
ghost use Rattle.std.specs.Prelude.{◌≡◌, ◌≤◌, ◌<◌, ◌^◌, IfOk, length};
ghost use Rattle.mutator_rules.specs.Configs.{TargetsDiffer};

use bp_faults::{Item, NodeId, OutOfMemory, Path, Place, Seq, Target, Text};
use bp_pipeline::laws::{
    faults_are_replayed, journal_texts_are_replayed, journals_are_replayed, one_graph, one_order,
    one_text,
};
use bp_pipeline::{GenError, Generated, generate, graph_after, replay, replay_lines, show_graph};
use bp_ports::OpenGate;
use bp_props::{Given, Module, ModuleKind, Props};
use mutator_rules::Config;
use order_text::journal_text;
use pass_ways::OrderLine;
use std::alloc::Global;
use std::process::Abort;
use std::test::Fail;
use std::thread::Threads;

/// A binary with the sanitizer is linked with a static library, and a library takes over defaults: the graph after so
/// many mutators, of which the last has this name.
const GRAPHS: [(u32, &str, &str); 6] = [
    (
        1,
        "defaults_deps",
        "0 d -\n1 l -\n  defaults 0\n2 s -\n3 b -\n",
    ),
    (
        3,
        "arch",
        "0 l android_arm64\n1 s android_arm64\n2 b android_arm64\n",
    ),
    (
        5,
        "link",
        "0 l android_arm64_static\n1 l android_arm64_shared\n2 s android_arm64_static\n\
         3 b android_arm64\n",
    ),
    (
        8,
        "per_src",
        "0 l android_arm64_static\n1 l android_arm64_shared\n2 s android_arm64_static\n\
         3 b android_arm64\n  static 2\n",
    ),
    (
        9,
        "sanitize",
        "0 l android_arm64_static\n1 l android_arm64_shared\n2 s android_arm64_static\n\
         3 s android_arm64_static_asan\n4 b android_arm64_asan\n  static 3\n",
    ),
    (
        11,
        "info",
        "0 l android_arm64_static\n1 l android_arm64_shared\n2 s android_arm64_static\n\
         3 s android_arm64_static_asan\n4 b android_arm64_asan\n  static 3\n",
    ),
];

const PLACE: Place = Place {
    file: 0,
    line: 1,
    col: 1,
};

fn item(alloc: Global, text: &str) -> Result<Item, OutOfMemory> {
    Ok(Item {
        text: Text::from_str(alloc, text)?,
        at: PLACE,
    })
}

fn named(alloc: Global, name: &str, kind: ModuleKind, props: Props) -> Result<Module, OutOfMemory> {
    Ok(Module {
        name: Text::from_str(alloc, name)?,
        kind,
        dir: Path::root(alloc),
        at: PLACE,
        props,
    })
}

/// A library that takes over the defaults.
fn library(alloc: Global) -> Result<Module, OutOfMemory> {
    let mut library = Props::empty(alloc);
    library.defaults.push(alloc, item(alloc, "d")?)?;
    named(alloc, "l", ModuleKind::Library, library)
}

/// A binary with the sanitizer, linked with the static library.
fn binary(alloc: Global) -> Result<Module, OutOfMemory> {
    let mut binary = Props::empty(alloc);
    binary.base.static_libs.push(alloc, item(alloc, "s")?)?;
    binary.address = Some(Given {
        value: true,
        at: PLACE,
    });
    named(alloc, "b", ModuleKind::Binary, binary)
}

fn modules(alloc: Global) -> Result<Vec<Module>, OutOfMemory>
    ensures { IfOk result (λ mods. length mods.items ≡ 4) }
{
    let mut mods = Vec::new(alloc);
    mods.push(named(alloc, "d", ModuleKind::Defaults, Props::empty(alloc))?)?;
    mods.push(library(alloc)?)?;
    mods.push(named(alloc, "s", ModuleKind::LibraryStatic, Props::empty(alloc))?)?;
    mods.push(binary(alloc)?)?;
    Ok(mods)
}

fn one_target(alloc: Global) -> Result<Config, OutOfMemory>
    ensures { IfOk result (λ c. TargetsDiffer c) }
{
    let mut targets = Vec::new(alloc);
    targets.push(Target::AndroidArm64)?;
    Ok(Config {
        targets: Seq::new(targets),
    })
}

/// The text of the graph after so many mutators, on two workers.
fn shown<R: Threads + Sync>(
    rt: &R,
    alloc: Global,
    mods: &[Module],
    config: &Config,
    k: u32,
) -> Result<Vec<u8>, GenError>
    requires few { length mods.now ≤ 2 ^ 17 }
    requires targets { TargetsDiffer config.now }
    requires built { k ≤ 11 }
{
    let g = graph_after(rt, alloc, mods, config, k, 2, &OpenGate)?;
    Ok(show_graph(alloc, mods, &g)?)
}

/// Whether the graph of the small tree after so many mutators is as wanted.
fn is_shown<R: Threads + Sync>(
    rt: &R,
    alloc: Global,
    k: u32,
    want: &str,
) -> Result<bool, OutOfMemory> {
    if k > 11 {
        return Ok(false);
    }
    let mods = modules(alloc)?;
    let config = one_target(alloc)?;
    match shown(rt, alloc, &mods, &config, k) {
        Ok(text) => Ok(text.as_slice() == want.as_bytes()),
        Err(_) => Ok(false),
    }
}

fn check_graphs<R: Threads + Sync + Abort>(
    rt: &R,
    alloc: Global,
    graphs: &[(u32, &str, &str)],
) -> Result<(), Fail> {
    for (k, name, want) in graphs {
        assert!(rt; is_shown(rt, alloc, *k, want)?, "{name}");
    }
    Ok(())
}

#[test]
fn graphs_after_mutators(rt: HostRuntime) -> Result<(), Fail> {
    one_graph();
    check_graphs(&rt, rt.alloc(), &GRAPHS)
}

/// The sizes of the graphs after the mutators, as nodes and edges.
const SIZES: [(u32, u32); 11] = [
    (4, 1),
    (4, 1),
    (3, 0),
    (3, 0),
    (4, 0),
    (4, 1),
    (4, 1),
    (4, 1),
    (5, 1),
    (5, 1),
    (5, 1),
];

fn has_sizes(made: &Generated) -> bool {
    let sizes = made.sizes.as_slice();
    let mut same = sizes.len() == SIZES.len();
    for (index, want) in SIZES.iter().enumerate() {
        same &= match sizes.get(index) {
            Some(size) => (size.nodes, size.edges) == *want,
            None => false,
        };
    }
    same
}

/// What is generated of the small tree.
fn generated<R: Threads + Sync>(rt: &R, alloc: Global, workers: u32) -> Result<Generated, GenError>
    requires workers { (1 ≤ workers) × (workers ≤ 64) }
{
    let mods = modules(alloc)?;
    let config = one_target(alloc)?;
    generate(rt, alloc, &mods, &config, workers, &OpenGate)
}

/// How many statements and visits there are, and whether each graph has its size.
fn counted<R: Threads + Sync>(rt: &R, alloc: Global, workers: u32) -> (u32, usize, bool)
    requires workers { (1 ≤ workers) × (workers ≤ 64) }
{
    match generated(rt, alloc, workers) {
        Ok(made) => (
            made.statements,
            made.journal.as_slice().len(),
            has_sizes(&made),
        ),
        Err(_) => (0, 0, false),
    }
}

/// Whether one worker and two write the same.
fn is_same_text<R: Threads + Sync>(rt: &R, alloc: Global) -> bool {
    match (generated(rt, alloc, 1), generated(rt, alloc, 2)) {
        (Ok(alone), Ok(together)) => alone.ninja.as_slice() == together.ninja.as_slice(),
        _ => false,
    }
}

#[test]
fn generated_on_workers(rt: HostRuntime) {
    let alloc = rt.alloc();
    assert!(rt; is_same_text(&rt, alloc));
    assert_eq!(rt; counted(&rt, alloc, 1), (6, 54, true));
    assert_eq!(rt; counted(&rt, alloc, 2), (6, 54, true));
    one_text();
}

/// The lines of a journal.
fn lines_of(alloc: Global, journal: &[(u32, NodeId)]) -> Result<Vec<OrderLine>, OutOfMemory> {
    let mut lines = Vec::new(alloc);
    for (pass, node) in journal {
        lines.push(OrderLine {
            entry: Some((*pass, *node)),
            text: Text::from_str(alloc, "line")?,
        })?;
    }
    Ok(lines)
}

/// The number and the line of the fault of a replay; 0 where it gives the text.
fn told(replayed: Result<Seq<u8>, GenError>, text: &[u8]) -> (u32, u32) {
    match replayed {
        Ok(replayed) => {
            if replayed.as_slice() == text {
                (0, 0)
            } else {
                (1, 1)
            }
        }
        Err(GenError::Bad(fault)) => (fault.kind.number(), fault.at.line),
        Err(GenError::OutOfMemory) => (2, 2),
    }
}

/// What a replay of the small tree along at most 100 lines tells.
fn replayed_at<R: Threads + Sync>(
    rt: &R,
    alloc: Global,
    lines: &[OrderLine],
    text: &[u8],
) -> Result<(u32, u32), GenError> {
    if lines.len() > 100 {
        return Ok((3, 3));
    }
    let mods = modules(alloc)?;
    let config = one_target(alloc)?;
    Ok(told(replay_lines(rt, alloc, &mods, &config, lines, 9), text))
}

/// What is left of a journal before it is replayed, or stands behind it.
#[derive(Clone, Copy)]
enum Cut {
    Whole,
    First,
    Last,
    OneMore,
}

/// The lines of a journal that is cut.
fn cut_lines(
    alloc: Global,
    journal: &[(u32, NodeId)],
    cut: Cut,
) -> Result<Vec<OrderLine>, OutOfMemory> {
    let part = match cut {
        Cut::Whole | Cut::OneMore => journal,
        Cut::First => match journal.split_first() {
            Some((_, rest)) => rest,
            None => journal,
        },
        Cut::Last => match journal.split_last() {
            Some((_, rest)) => rest,
            None => journal,
        },
    };
    let mut lines = lines_of(alloc, part)?;
    if matches!(cut, Cut::OneMore) {
        lines.push(OrderLine {
            entry: Some((13, NodeId(0))),
            text: Text::from_str(alloc, "line")?,
        })?;
    }
    Ok(lines)
}

/// What a replay along the lines of its own journal, cut, tells.
fn replayed_along<R: Threads + Sync>(
    rt: &R,
    alloc: Global,
    cut: Cut,
) -> Result<(u32, u32), GenError> {
    let made = generated(rt, alloc, 2)?;
    let lines = cut_lines(alloc, made.journal.as_slice(), cut)?;
    replayed_at(rt, alloc, &lines, made.ninja.as_slice())
}

/// The same, and the greatest numbers where the journal itself has a fault.
fn told_along<R: Threads + Sync>(rt: &R, alloc: Global, cut: Cut) -> (u32, u32) {
    match replayed_along(rt, alloc, cut) {
        Ok(told) => told,
        Err(_) => (u32::MAX, u32::MAX),
    }
}

#[test]
fn replayed_along_lines(rt: HostRuntime) {
    let alloc = rt.alloc();
    assert_eq!(rt; told_along(&rt, alloc, Cut::Whole), (0, 0));
    assert_eq!(rt; told_along(&rt, alloc, Cut::First), (35, 4));
    assert_eq!(rt; told_along(&rt, alloc, Cut::Last), (36, 54));
    assert_eq!(rt; told_along(&rt, alloc, Cut::OneMore), (35, 55));
    journals_are_replayed();
    faults_are_replayed();
}

/// What a replay along at most 1000 bytes tells.
fn replayed_by<R: Threads + Sync>(
    rt: &R,
    alloc: Global,
    order: &[u8],
    text: &[u8],
) -> Result<(u32, u32), GenError> {
    if order.len() > 1000 {
        return Ok((3, 3));
    }
    let mods = modules(alloc)?;
    let config = one_target(alloc)?;
    Ok(told(replay(rt, alloc, &mods, &config, order, 9), text))
}

/// What replays along the bytes of its own journal, and of one wrong line, tell.
fn replayed_twice<R: Threads + Sync>(
    rt: &R,
    alloc: Global,
) -> Result<((u32, u32), (u32, u32)), GenError> {
    let made = generated(rt, alloc, 2)?;
    let order = journal_text(alloc, made.journal.as_slice())?;
    let text = made.ninja.as_slice();
    let whole = replayed_by(rt, alloc, &order, text)?;
    let wrong = replayed_by(rt, alloc, b"01 0\n", text)?;
    Ok((whole, wrong))
}

#[test]
fn replayed_along_bytes(rt: HostRuntime) {
    let told = replayed_twice(&rt, rt.alloc());
    assert!(rt; matches!(told, Ok(((0, 0), (35, 1)))));
    journal_texts_are_replayed();
    one_order();
}

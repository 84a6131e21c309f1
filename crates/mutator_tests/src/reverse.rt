//! Which edges requests add, and which fault comes first.
ghost use Rattle.std.specs.Prelude.{IsTrue, length};
ghost use Rattle.mutator_rules.specs.Conditions.{MayRun, indices_in};
ghost use Rattle.reverse_deps.specs.Applied.{AskInside};

use bp_faults::{
    ModuleId, NodeId, OutOfMemory, Path, Place, Refusal, Seq, Target, Text, fault_line,
};
use bp_props::{Module, ModuleKind, Props};
use module_graph::{Axis, EdgeKind, Graph, Node, Variation, Variations};
use mutator_rules::{Request, Wanted};
use reverse_deps::{apply, laws, resolve};
use std::alloc::Global;
use std::process::Abort;
use std::test::Fail;

const DEVICE: Variation = Variation::Target(Target::AndroidArm64);

const NONE: Variation = Variation::Empty;

const VENDOR: Variation = Variation::Vendor;

const STATIC: Variation = Variation::Static;

const SHARED: Variation = Variation::Shared;

const FORWARD: bool = false;

const REVERSE: bool = true;

/// The modules of each graph. The last has the name of another.
const MODULES: [(&str, ModuleKind); 6] = [
    ("host", ModuleKind::LibraryShared),
    ("p", ModuleKind::LibraryShared),
    ("app", ModuleKind::Binary),
    ("z", ModuleKind::LibraryStatic),
    ("files", ModuleKind::Filegroup),
    ("z", ModuleKind::Filegroup),
];

/// Its nodes: the module, the image, the link and the sanitizer.
const NODES: [Row; 7] = [
    (0, NONE, SHARED, NONE),
    (1, NONE, SHARED, NONE),
    (2, NONE, NONE, NONE),
    (2, VENDOR, NONE, NONE),
    (3, NONE, STATIC, NONE),
    (3, NONE, STATIC, Variation::Asan),
    (4, NONE, NONE, NONE),
];

/// The asking node, the direction, the kind, the name, and the wanted image and link.
type Ask = (u32, bool, EdgeKind, &'static str, Variation, Variation);

/// A list of requests, and the edges that it adds, or the fault.
type Case = (&'static [Ask], &'static str);

/// The edges that lists of requests add, or the fault. The request at index n is in line n + 1.
const CASES: [Case; 9] = [
    // edges that are asked for in both directions, and the least node of two
    (
        &[
            (1, REVERSE, EdgeKind::Shared, "app", NONE, NONE),
            (2, FORWARD, EdgeKind::Static, "z", NONE, STATIC),
            (3, FORWARD, EdgeKind::Sources, "files", NONE, NONE),
            (2, FORWARD, EdgeKind::Header, "host", NONE, SHARED),
        ],
        "2 Static 4 2\n2 Header 0 4\n2 Shared 1 1\n3 Sources 6 3\n",
    ),
    // a plugin of a host that it doesn't use, and of one that it uses
    (
        &[(1, REVERSE, EdgeKind::Shared, "host", NONE, SHARED)],
        "0 Shared 1 1\n",
    ),
    (
        &[
            (1, FORWARD, EdgeKind::Shared, "host", NONE, SHARED),
            (1, REVERSE, EdgeKind::Shared, "host", NONE, SHARED),
        ],
        ":2:1: error 23: dependency cycle: host{android_arm64_shared} -> p{android_arm64_shared} -> \
            host{android_arm64_shared}\n",
    ),
    // a plugin of itself
    (
        &[(0, REVERSE, EdgeKind::Shared, "host", NONE, SHARED)],
        ":1:1: error 23: dependency cycle: host{android_arm64_shared} -> host{android_arm64_shared}\n",
    ),
    // a library that isn't built for the vendor, and one that isn't there, behind one that is found
    (
        &[(3, FORWARD, EdgeKind::Static, "z", VENDOR, STATIC)],
        ":1:1: error 24: missing variant: z{android_arm64_vendor_static}\n",
    ),
    (
        &[
            (2, FORWARD, EdgeKind::Static, "z", NONE, STATIC),
            (3, FORWARD, EdgeKind::Static, "y", VENDOR, STATIC),
        ],
        ":2:1: error 21: missing module: y\n",
    ),
    // names that two faults fit: the kind of the module is the first
    (
        &[(2, FORWARD, EdgeKind::Defaults, "z", VENDOR, STATIC)],
        ":1:1: error 22: not a defaults module: z\n",
    ),
    (
        &[(2, FORWARD, EdgeKind::Sources, "z", VENDOR, STATIC)],
        ":1:1: error 25: bad source: z\n",
    ),
    // a cycle, and a name that isn't there behind it
    (
        &[
            (0, REVERSE, EdgeKind::Shared, "host", NONE, SHARED),
            (0, FORWARD, EdgeKind::Sources, "y", NONE, NONE),
        ],
        ":2:1: error 21: missing module: y\n",
    ),
];

fn place(line: u32) -> Place {
    Place {
        file: 1,
        line,
        col: 1,
    }
}

fn named(alloc: Global, name: &str, kind: ModuleKind) -> Result<Module, OutOfMemory> {
    Ok(Module {
        name: Text::from_str(alloc, name)?,
        kind,
        dir: Path::root(alloc),
        at: place(1),
        props: Props::empty(alloc),
    })
}

fn modules_of(alloc: Global, list: &[(&str, ModuleKind)]) -> Result<Vec<Module>, OutOfMemory> {
    let mut mods = Vec::new(alloc);
    for (name, kind) in list {
        mods.push(named(alloc, name, *kind)?)?;
    }
    Ok(mods)
}

fn modules(alloc: Global) -> Result<Vec<Module>, OutOfMemory> {
    modules_of(alloc, &MODULES)
}

fn variations(
    alloc: Global,
    image: Variation,
    link: Variation,
    sanitizer: Variation,
) -> Variations {
    let mut vars = Variations::empty(alloc);
    vars.set(Axis::Target, DEVICE);
    vars.set(Axis::Image, image);
    vars.set(Axis::Link, link);
    vars.set(Axis::Sanitize, sanitizer);
    vars
}

/// A node's module, image, link and sanitizer.
type Row = (u32, Variation, Variation, Variation);

fn graph_of(alloc: Global, rows: &[Row]) -> Result<Graph<bool>, OutOfMemory> {
    let mut nodes = Vec::new(alloc);
    for (module, image, link, sanitizer) in rows {
        nodes.push(Node {
            module: ModuleId(*module),
            vars: variations(alloc, *image, *link, *sanitizer),
            payload: false,
            edges: Seq::new(Vec::new(alloc)),
        })?;
    }
    Ok(Graph {
        nodes: Seq::new(nodes),
    })
}

fn graph(alloc: Global) -> Result<Graph<bool>, OutOfMemory> {
    graph_of(alloc, &NODES)
}

fn requests(alloc: Global, asks: &[Ask]) -> Result<Vec<(NodeId, Request)>, OutOfMemory> {
    let mut asked = Vec::new(alloc);
    let mut line = 0u32;
    for (asker, reverse, kind, name, image, link) in asks {
        line = line.wrapping_add(1);
        let request = Request {
            reverse: *reverse,
            kind: *kind,
            name: Text::from_str(alloc, name)?,
            at: place(line),
            want: Wanted {
                target: DEVICE,
                image: *image,
                link: *link,
            },
        };
        asked.push((NodeId(*asker), request))?;
    }
    Ok(asked)
}

/// Whether each node of a graph is of a module, and has no edge yet.
fn may_run(mods: &[Module], g: &Graph<bool>) -> bool
    ensures { IsTrue result → MayRun (indices_in (length mods.now)) g.now.nodes }
{
    let nodes = g.nodes.as_slice();
    for node in nodes {
        let edges = node.edges.as_slice();
        if edges.len() > 0 || node.module.0 as usize >= mods.len() {
            return false;
        }
    }
    nodes.len() < 1 << 32
}

fn ask_inside(asked: &[(NodeId, Request)], count: usize) -> bool
    ensures { IsTrue result → AskInside count asked.now }
{
    for (asker, _) in asked {
        if asker.0 as usize >= count {
            return false;
        }
    }
    true
}

/// The edges of a graph, one a line: the node, the kind, the target and the line of the request.
fn listed(alloc: Global, g: &Graph<bool>) -> Result<String, OutOfMemory> {
    let mut out = String::new(alloc);
    for (n, node) in g.nodes.as_slice().iter().enumerate() {
        for edge in node.edges.as_slice() {
            let kind = edge.kind;
            let to = edge.to.0;
            let line = edge.at.line;
            out.push_str(format!(in alloc; "{n} {kind:?} {to} {line}\n")?.as_str())?;
        }
    }
    Ok(out)
}

/// What requests make of the graph: its edges, or the line of the fault.
fn told(
    alloc: Global,
    mods: &[Module],
    asked: &[(NodeId, Request)],
) -> Result<String, OutOfMemory> {
    let g = graph(alloc)?;
    let few = mods.len() < 1 << 32;
    if !few || !may_run(mods, &g) || !ask_inside(asked, g.nodes.as_slice().len()) {
        return Ok(String::from_str(alloc, "no graph")?);
    }
    match apply(alloc, mods, g, asked) {
        Ok(made) => listed(alloc, &made),
        Err(Refusal::Bad(fault)) => Ok(fault_line(alloc, &fault, &[])?),
        Err(Refusal::OutOfMemory) => Err(OutOfMemory),
    }
}

fn check_cases(rt: &impl Abort, alloc: Global, cases: &[Case]) -> Result<(), Fail> {
    let mods = modules(alloc)?;
    for (index, (asks, want)) in cases.iter().enumerate() {
        let asked = requests(alloc, asks)?;
        assert_eq!(rt; told(alloc, &mods, &asked)?.as_str(), *want, "case {index}");
    }
    Ok(())
}

#[test]
fn requests_and_what_they_add(rt: HostRuntime) -> Result<(), Fail> {
    check_cases(&rt, rt.alloc(), &CASES)
}

/// The node for one request alone; the greatest number where there is none.
fn node_for(alloc: Global, request: &Request) -> Result<u32, OutOfMemory> {
    let mods = modules(alloc)?;
    let g = graph(alloc)?;
    let few = mods.as_slice().len() < 1 << 32;
    if !few || !may_run(&mods, &g) {
        return Ok(u32::MAX);
    }
    match resolve(alloc, &mods, &g, request) {
        Ok(n) => Ok(n.0),
        Err(_) => Ok(u32::MAX),
    }
}

/// The one request.
const ALONE: [Ask; 1] = [(2, FORWARD, EdgeKind::Static, "z", NONE, STATIC)];

#[test]
fn one_request_alone(rt: HostRuntime) -> Result<(), Fail> {
    let alloc = rt.alloc();
    for (_, request) in &requests(alloc, &ALONE)? {
        assert_eq!(rt; node_for(alloc, request)?, 4);
    }
    laws::one_outcome::<bool>();
    laws::nodes_for_are_least::<bool>();
    Ok(())
}

/// The one request, so many times.
fn repeated(alloc: Global, count: u32) -> Result<Vec<(NodeId, Request)>, OutOfMemory> {
    let mut asked = Vec::new(alloc);
    for _time in 0..count {
        for one in requests(alloc, &ALONE)? {
            asked.push(one)?;
        }
    }
    Ok(asked)
}

#[test]
fn one_edge_more_than_a_graph_may_have(rt: HostRuntime) -> Result<(), Fail> {
    let alloc = rt.alloc();
    let mods = modules(alloc)?;
    let asked = repeated(alloc, 4_194_305)?;
    assert_eq!(rt;
        told(alloc, &mods, &asked)?.as_str(),
        ":1:1: error 30: too many: edges\n"
    );
    Ok(())
}

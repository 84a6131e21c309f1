//! What the three rules answer at the nodes of a small graph, through their traits: an app depends on a static library
//! `b`, and on another module as a shared, a header and a whole library.
ghost use Rattle.std.specs.Prelude.{◌≡◌, ◌∷◌, [], IfOk, length};
ghost use Rattle.graph_nodes.specs.declared.graph.EdgeKind.TheVariants.{Header, Shared, Whole};
ghost use Rattle.graph_nodes.specs.Nodes.{targets};
ghost use Rattle.mutator_rules.specs.Arrivals.{kinds_into};
ghost use Rattle.mutator_rules.specs.Conditions.{MayVisit, indices_in};

use bp_faults::{FaultKind, Item, ModuleId, NodeId, OutOfMemory, Path, Payload, Place, Seq, Text};
use bp_props::{Given, Module, ModuleKind, Props};
use info_mutators::laws::{
    exports_are_included, info_does_not_split, info_holds_nodes, own_variations_differ,
};
use info_mutators::{Info, Sanitize, SdkLevel};
use module_graph::{Axis, Edge, EdgeKind, Graph, Node, Variation, Variations};
use module_rules::{Record, one_variant};
use mutator_rules::{BottomUp, Config, Split, TopDown, Transition};
use pass_core::VisitError;
use std::alloc::Global;
use std::process::Abort;
use std::sync::Arc;
use std::test::Fail;

const PLACE: Place = Place {
    file: 1,
    line: 1,
    col: 1,
};

fn path(alloc: Global, text: &str) -> Result<Path, OutOfMemory> {
    match Path::new(Text::from_str(alloc, text)?) {
        Some(path) => Ok(path),
        None => Ok(Path::root(alloc)),
    }
}

fn nodes(alloc: Global, numbers: &[u32]) -> Result<Seq<NodeId>, OutOfMemory> {
    let mut nodes = Seq::new(Vec::new(alloc));
    for number in numbers {
        nodes.push(NodeId(*number))?;
    }
    Ok(nodes)
}

fn given<T>(value: T) -> Option<Given<T>> {
    Some(Given { value, at: PLACE })
}

fn module(alloc: Global, name: &str) -> Result<Module, OutOfMemory> {
    Ok(Module {
        name: Text::from_str(alloc, name)?,
        kind: ModuleKind::Library,
        dir: Path::root(alloc),
        at: PLACE,
        props: Props::empty(alloc),
    })
}

fn edge(kind: EdgeKind, to: u32) -> Edge
    ensures { result ≡ record { kind = kind; to = record { 0 = to }; at = record { file = 1; line = 1; col = 1 } } }
{
    Edge {
        kind,
        to: NodeId(to),
        at: PLACE,
    }
}

fn node(
    alloc: Global,
    module: u32,
    payload: Record<'static>,
    edges: Vec<Edge>,
) -> Node<Record<'static>>
    ensures module { result.«module».0 ≡ «module» }
    ensures edges { result.edges ≡ edges.items }
{
    Node {
        module: ModuleId(module),
        vars: Variations::empty(alloc),
        payload,
        edges: Seq::new(edges),
    }
}

/// Three modules, and a configuration without targets.
#[derive(Drop)]
struct World {
    mods: Vec<Module>,
    config: Config,
}

fn small_world(alloc: Global) -> Result<World, OutOfMemory>
    ensures { IfOk result (λ w. length w.mods.items ≡ 3) }
{
    let mut mods = Vec::new(alloc);
    mods.push(module(alloc, "app")?)?;
    mods.push(module(alloc, "b")?)?;
    mods.push(module(alloc, "c")?)?;
    Ok(World {
        mods,
        config: config(alloc),
    })
}

/// A node of each of the modules. The app's record is given, and that of the module that it depends on in three ways.
fn small_graph(
    alloc: Global,
    app: Props,
    other: Props,
) -> Result<Graph<Record<'static>>, OutOfMemory>
    ensures app { IfOk result (λ g. MayVisit (indices_in 3) g.nodes 0) }
    ensures other { IfOk result (λ g. MayVisit (indices_in 3) g.nodes 2) }
    ensures four { IfOk result (λ g. length (targets g.nodes 0) ≡ 4) }
    ensures kinds { IfOk result (λ g. kinds_into g.nodes 2 ≡ Shared ∷ Header ∷ Whole ∷ []) }
{
    let mut edges = Vec::new(alloc);
    edges.push(edge(EdgeKind::Static, 1))?;
    edges.push(edge(EdgeKind::Shared, 2))?;
    edges.push(edge(EdgeKind::Header, 2))?;
    edges.push(edge(EdgeKind::Whole, 2))?;
    let mut nodes = Vec::new(alloc);
    let (app, other) = (Record::new(alloc, app)?, Record::new(alloc, other)?);
    let library = Record::new(alloc, Props::empty(alloc))?;
    nodes.push(node(alloc, 0, app, edges))?;
    nodes.push(node(alloc, 1, library, Vec::new(alloc)))?;
    nodes.push(node(alloc, 2, other, Vec::new(alloc)))?;
    Ok(Graph {
        nodes: Seq::new(nodes),
    })
}

/// What a rule made of a library: the directory that it exports, its link line and its shared libraries.
type Made = (&'static str, &'static [u32], &'static [u32]);

fn library(alloc: Global, made: Made) -> Result<Props, OutOfMemory> {
    let (exported, line, slibs) = made;
    let mut record = Props::empty(alloc);
    record.exports.push(path(alloc, exported)?)?;
    record.line = nodes(alloc, line)?;
    record.slibs = nodes(alloc, slibs)?;
    Ok(record)
}

fn done(alloc: Global, props: Props) -> Result<Arc<Split<Record<'static>>>, OutOfMemory> {
    let made = one_variant(alloc, Record::new(alloc, props)?, Seq::new(Vec::new(alloc)))?;
    Ok(Arc::new(alloc, made)?)
}

/// The app exports a directory of its own, and what the static library `b` exports.
fn app(alloc: Global) -> Result<Props, OutOfMemory> {
    let mut own = Props::empty(alloc);
    let base = &mut own.base;
    base.local_include_dirs.push(alloc, path(alloc, "local")?)?;
    base.export_include_dirs.push(alloc, path(alloc, "own")?)?;
    base.include_dirs.push(alloc, path(alloc, "other")?)?;
    base.export_static_lib_headers.push(
        alloc,
        Item {
            text: Text::from_str(alloc, "b")?,
            at: PLACE,
        },
    )?;
    Ok(own)
}

fn add_paths(text: &mut String, paths: &[Path]) -> Result<(), OutOfMemory> {
    for path in paths {
        text.push_str(path.as_str())?;
        text.push_str(" ")?;
    }
    text.push_str("; ")?;
    Ok(())
}

fn add_nodes(alloc: Global, text: &mut String, nodes: &[NodeId]) -> Result<(), OutOfMemory> {
    for node in nodes {
        let number = node.0;
        text.push_str(&format!(in alloc; "{number} ")?)?;
    }
    text.push_str("; ")?;
    Ok(())
}

fn add_lists(alloc: Global, text: &mut String, props: &Props) -> Result<(), OutOfMemory> {
    add_paths(text, props.exports.as_slice())?;
    add_paths(text, props.includes.as_slice())?;
    add_nodes(alloc, text, props.line.as_slice())?;
    add_nodes(alloc, text, props.slibs.as_slice())
}

/// The four lists of the first variant, or the fault's kind and subject.
fn lists(
    alloc: Global,
    answer: &Result<Split<Record<'_>>, VisitError>,
) -> Result<String, OutOfMemory> {
    let mut text = String::new(alloc);
    match answer {
        Ok(made) => {
            for (_, record) in made.variants.as_slice() {
                add_lists(alloc, &mut text, &record.to_props(alloc)?)?;
            }
        }
        Err(VisitError::Bad(fault)) => {
            text.push_str(fault.subject.as_str())?;
            if fault.kind == FaultKind::LinkTooLong {
                text.push_str(" is too long")?;
            }
        }
        Err(VisitError::OutOfMemory) => return Err(OutOfMemory),
    }
    Ok(text)
}

fn config(alloc: Global) -> Config {
    Config {
        targets: Seq::new(Vec::new(alloc)),
    }
}

fn made_library(alloc: Global, made: Made) -> Result<Arc<Split<Record<'static>>>, OutOfMemory> {
    done(alloc, library(alloc, made)?)
}

fn made_empty(alloc: Global) -> Result<Arc<Split<Record<'static>>>, OutOfMemory> {
    done(alloc, Props::empty(alloc))
}

/// What a rule made of the four libraries.
fn four_libraries(alloc: Global) -> Result<Vec<Arc<Split<Record<'static>>>>, OutOfMemory>
    ensures { IfOk result (λ ins. length ins.items ≡ 4) }
{
    let mut ins = Vec::new(alloc);
    ins.push(made_library(alloc, ("b/inc", &[3], &[5]))?)?;
    ins.push(made_library(alloc, ("c/inc", &[8], &[9]))?)?;
    ins.push(made_library(alloc, ("h/inc", &[7], &[4]))?)?;
    ins.push(made_library(alloc, ("w/inc", &[3, 11], &[5, 6]))?)?;
    Ok(ins)
}

/// The lists of an app, by what a rule made of its four libraries.
fn lists_of_app(
    alloc: Global,
    world: &World,
    app: Props,
    ins: &[Arc<Split<Record<'static>>>],
) -> Result<String, OutOfMemory>
    requires three { length world.now.mods.items ≡ 3 }
    requires four { length ins.now ≡ 4 }
{
    let graph: Graph<Record<'static>> = small_graph(alloc, app, Props::empty(alloc))?;
    let rule = Info::new(&world.mods, &world.config);
    let answer = rule.visit(alloc, &graph, NodeId(0), ins);
    lists(alloc, &answer)
}

fn lists_in(alloc: Global, world: &World) -> Result<String, OutOfMemory>
    requires { length world.now.mods.items ≡ 3 }
{
    let ins: Vec<Arc<Split<Record<'static>>>> = four_libraries(alloc)?;
    lists_of_app(alloc, world, app(alloc)?, &ins)
}

fn the_lists(alloc: Global) -> Result<String, OutOfMemory> {
    let world = small_world(alloc)?;
    lists_in(alloc, &world)
}

fn check_lists(rt: &impl Abort, alloc: Global, want: &str) -> Result<(), Fail> {
    assert_eq!(rt; the_lists(alloc)?.as_str(), want);
    Ok(())
}

#[test]
fn the_four_lists(rt: HostRuntime) -> Result<(), Fail> {
    let want = "own b/inc w/inc ; local own other b/inc c/inc h/inc w/inc ; 1 3 11 ; 2 5 6 ; ";
    check_lists(&rt, rt.alloc(), want)
}

fn has_axis(alloc: Global) -> bool {
    let config = config(alloc);
    Info::new(&[], &config).axis().is_some()
}

#[test]
fn info_has_no_axis(rt: HostRuntime) {
    assert!(rt; !has_axis(rt.alloc()));
    info_does_not_split();
    info_holds_nodes();
    exports_are_included();
}

/// How many directories a library exports, how many nodes its link line has, and how many shared libraries it needs.
type Lengths = (u32, u32, u32);

/// The nodes from number 0 on.
fn first_nodes(alloc: Global, count: u32) -> Result<Seq<NodeId>, OutOfMemory> {
    let mut nodes = Seq::new(Vec::new(alloc));
    for number in 0..count {
        nodes.push(NodeId(number))?;
    }
    Ok(nodes)
}

/// So many directories.
fn directories(alloc: Global, count: u32) -> Result<Seq<Path>, OutOfMemory> {
    let mut paths = Seq::new(Vec::new(alloc));
    for number in 0..count {
        let text = format!(in alloc; "d{number}")?;
        paths.push(path(alloc, text.as_str())?)?;
    }
    Ok(paths)
}

/// A library with long lists.
fn with_long_lists(
    alloc: Global,
    (exports, line, slibs): Lengths,
) -> Result<Arc<Split<Record<'static>>>, OutOfMemory> {
    let mut long = Props::empty(alloc);
    long.exports = directories(alloc, exports)?;
    long.line = first_nodes(alloc, line)?;
    long.slibs = first_nodes(alloc, slibs)?;
    done(alloc, long)
}

/// A static library with such lists: the app's own are as long, since their nodes from 0 on have the app's libraries
/// among them.
fn long_lists_in(alloc: Global, world: &World, lengths: Lengths) -> Result<String, OutOfMemory>
    requires { length world.now.mods.items ≡ 3 }
{
    let mut ins: Vec<Arc<Split<Record<'static>>>> = Vec::new(alloc);
    ins.push(with_long_lists(alloc, lengths)?)?;
    ins.push(made_empty(alloc)?)?;
    ins.push(made_empty(alloc)?)?;
    ins.push(made_empty(alloc)?)?;
    lists_of_app(alloc, world, Props::empty(alloc), &ins)
}

fn are_too_long(alloc: Global, lengths: Lengths) -> Result<bool, OutOfMemory> {
    let world = small_world(alloc)?;
    Ok(long_lists_in(alloc, &world, lengths)?.as_str() == "app is too long")
}

/// All three at the limit, then each one beyond it.
const LENGTHS: &[(Lengths, bool)] = &[
    ((1_024, 1_024, 1_024), false),
    ((1_025, 1_024, 1_024), true),
    ((1_024, 1_025, 1_024), true),
    ((1_024, 1_024, 1_025), true),
];

#[test]
fn how_long_the_lists_may_be(rt: HostRuntime) -> Result<(), Fail> {
    for (lengths, want) in LENGTHS {
        assert_eq!(rt; are_too_long(rt.alloc(), *lengths)?, *want, "{lengths:?}");
    }
    Ok(())
}

fn leveled(alloc: Global, level: u32) -> Result<Arc<Record<'static>>, OutOfMemory> {
    let mut props = Props::empty(alloc);
    props.level = level;
    Ok(Arc::new(alloc, Record::new(alloc, props)?)?)
}

fn three_leveled(alloc: Global, levels: [u32; 3]) -> Result<Vec<Arc<Record<'static>>>, OutOfMemory>
    ensures { IfOk result (λ ins. length ins.items ≡ 3) }
{
    let mut ins = Vec::new(alloc);
    ins.push(leveled(alloc, levels[0])?)?;
    ins.push(leveled(alloc, levels[1])?)?;
    ins.push(leveled(alloc, levels[2])?)?;
    Ok(ins)
}

/// The level of the module that the app depends on as a shared, a header and a whole library.
fn level_in(
    alloc: Global,
    world: &World,
    other: Props,
    levels: [u32; 3],
) -> Result<u32, OutOfMemory>
    requires { length world.now.mods.items ≡ 3 }
{
    let ins: Vec<Arc<Record<'static>>> = three_leveled(alloc, levels)?;
    let graph: Graph<Record<'static>> = small_graph(alloc, Props::empty(alloc), other)?;
    let kinds = [EdgeKind::Shared, EdgeKind::Header, EdgeKind::Whole];
    let rule = SdkLevel::new(&world.mods, &world.config);
    match rule.visit(alloc, &graph, NodeId(2), &kinds, &ins) {
        Ok(record) => Ok(record.level()),
        Err(_) => Err(OutOfMemory),
    }
}

fn level_with(alloc: Global, other: Props, levels: [u32; 3]) -> Result<u32, OutOfMemory> {
    let world = small_world(alloc)?;
    level_in(alloc, &world, other, levels)
}

#[test]
fn levels_come_from_dependents(rt: HostRuntime) -> Result<(), Fail> {
    let alloc = rt.alloc();
    assert_eq!(rt; level_with(alloc, Props::empty(alloc), [28, 31, 30])?, 30);
    let mut other = Props::empty(alloc);
    other.min_sdk_version = given(33);
    assert_eq!(rt; level_with(alloc, other, [28, 31, 30])?, 33);
    Ok(())
}

fn sanitized(alloc: Global, asan: bool) -> Result<Arc<Record<'static>>, OutOfMemory> {
    let mut props = Props::empty(alloc);
    props.asan = asan;
    Ok(Arc::new(alloc, Record::new(alloc, props)?)?)
}

fn four_sanitized(alloc: Global, asan: [bool; 4]) -> Result<Vec<Arc<Record<'static>>>, OutOfMemory>
    ensures { IfOk result (λ ins. length ins.items ≡ 4) }
{
    let mut ins = Vec::new(alloc);
    ins.push(sanitized(alloc, asan[0])?)?;
    ins.push(sanitized(alloc, asan[1])?)?;
    ins.push(sanitized(alloc, asan[2])?)?;
    ins.push(sanitized(alloc, asan[3])?)?;
    Ok(ins)
}

/// How many flags the app is compiled and linked with, where the results of its four dependencies have that field.
fn flags_in(alloc: Global, world: &World, asan: [bool; 4]) -> Result<(usize, usize), OutOfMemory>
    requires { length world.now.mods.items ≡ 3 }
{
    let ins: Vec<Arc<Record<'static>>> = four_sanitized(alloc, asan)?;
    let graph: Graph<Record<'static>> = small_graph(
        alloc,
        Props::empty(alloc),
        Props::empty(alloc),
    )?;
    let rule = Sanitize::new(&world.mods, &world.config);
    match rule.mutate(alloc, &graph, NodeId(0), &ins) {
        Ok(record) => {
            let props = record.to_props(alloc)?;
            Ok((
                props.base.cflags.items().len(),
                props.base.ldflags.items().len(),
            ))
        }
        Err(_) => Err(OutOfMemory),
    }
}

fn flags_with(alloc: Global, asan: [bool; 4]) -> Result<(usize, usize), OutOfMemory> {
    let world = small_world(alloc)?;
    flags_in(alloc, &world, asan)
}

#[test]
fn what_is_sanitized(rt: HostRuntime) -> Result<(), Fail> {
    let alloc = rt.alloc();
    assert_eq!(rt; flags_with(alloc, [false, true, true, false])?, (0, 0));
    assert_eq!(rt; flags_with(alloc, [false, false, false, true])?, (0, 1));
    Ok(())
}

/// An app with the sanitizer, and a module that never has it.
fn sanitized_graph(alloc: Global) -> Result<Graph<Record<'static>>, OutOfMemory>
    ensures app { IfOk result (λ g. MayVisit (indices_in 3) g.nodes 0) }
    ensures other { IfOk result (λ g. MayVisit (indices_in 3) g.nodes 2) }
{
    let mut on = Props::empty(alloc);
    on.address = given(true);
    let mut never = on.copy(alloc)?;
    never.never = given(true);
    small_graph(alloc, on, never)
}

/// What the app and the other module take, and what goes out along a whole and along a shared edge.
fn along_in(
    alloc: Global,
    world: &World,
) -> Result<(Variation, Variation, Variation, Variation), OutOfMemory>
    requires { length world.now.mods.items ≡ 3 }
{
    let made: Graph<Record<'static>> = sanitized_graph(alloc)?;
    let rule = Sanitize::new(&world.mods, &world.config);
    let graph = &made;
    Ok((
        rule.incoming(graph, NodeId(0), Variation::Empty),
        rule.incoming(graph, NodeId(2), Variation::Asan),
        rule.outgoing(graph, NodeId(0), EdgeKind::Whole, Variation::Asan),
        rule.outgoing(graph, NodeId(0), EdgeKind::Shared, Variation::Asan),
    ))
}

fn sanitized_along(
    alloc: Global,
) -> Result<(Variation, Variation, Variation, Variation), OutOfMemory> {
    let world = small_world(alloc)?;
    along_in(alloc, &world)
}

#[test]
fn sanitized_along_edges(rt: HostRuntime) -> Result<(), Fail> {
    assert_eq!(rt;
        sanitized_along(rt.alloc())?,
        (
            Variation::Asan,
            Variation::Empty,
            Variation::Asan,
            Variation::Empty
        )
    );
    Ok(())
}

/// Whether the rule splits by sanitizer, and the app has that variation alone.
fn axis_and_own_in(alloc: Global, world: &World) -> Result<(bool, bool), OutOfMemory>
    requires { length world.now.mods.items ≡ 3 }
{
    let graph: Graph<Record<'static>> = sanitized_graph(alloc)?;
    let rule = Sanitize::new(&world.mods, &world.config);
    let own = match rule.split(alloc, &graph, NodeId(0)) {
        Ok(own) => own.as_slice() == [Variation::Asan].as_slice(),
        Err(_) => false,
    };
    Ok((rule.axis() == Axis::Sanitize, own))
}

fn axis_and_own(alloc: Global) -> Result<(bool, bool), OutOfMemory> {
    let world = small_world(alloc)?;
    axis_and_own_in(alloc, &world)
}

#[test]
fn own_variation_of_a_sanitized_app(rt: HostRuntime) -> Result<(), Fail> {
    assert_eq!(rt; axis_and_own(rt.alloc())?, (true, true));
    own_variations_differ();
    Ok(())
}

//! What each rule makes of one record, through the bound of a rule.
ghost use Rattle.std.specs.Prelude.{◌≡◌, IfOk, [], length};
ghost use Rattle.graph_nodes.specs.Nodes.{targets};
ghost use Rattle.mutator_rules.specs.Conditions.{MayVisit, indices_in};

use bp_faults::{Item, ModuleId, NodeId, OutOfMemory, Path, Place, Seq, Target, Text};
use bp_props::{Given, GroupId, GroupProps, Module, ModuleKind, Props, Source};
use linkage_mutator::laws::{link_variants_differ, source_variants_differ};
use linkage_mutator::{DepsAsk, LinkSplit, PerSource, PluginsAsk, module_names};
use module_graph::{Axis, Graph, Node, Variation, Variations};
use module_rules::Record;
use mutator_rules::{BottomUp, Config, Split};
use pass_core::VisitError;
use std::alloc::Global;
use std::process::Abort;
use std::sync::Arc;
use std::test::Fail;

#[derive(Clone, Copy)]
enum Rule {
    Link,
    Deps,
    Plugins,
    PluginsByTable,
    Sources,
}

const NONE: Variation = Variation::Empty;

const STATIC: Variation = Variation::Static;

const SHARED: Variation = Variation::Shared;

/// What a rule makes of the record of a module of a kind, at a node with a link. The flag turns its shared group off.
type Case = (Rule, ModuleKind, Variation, bool, &'static str);

const CASES: [Case; 13] = [
    (
        Rule::Link,
        ModuleKind::Library,
        NONE,
        true,
        "Static -o-s-fPIC x.c files;Shared -o-h-fPIC x.c files;",
    ),
    (
        Rule::Link,
        ModuleKind::Library,
        NONE,
        false,
        "Static -o-s-fPIC x.c files;",
    ),
    (
        Rule::Link,
        ModuleKind::LibraryStatic,
        NONE,
        false,
        "Static -o-fPIC x.c files;",
    ),
    (
        Rule::Link,
        ModuleKind::LibraryShared,
        NONE,
        false,
        "Shared -o-fPIC x.c files;",
    ),
    (
        Rule::Link,
        ModuleKind::Binary,
        NONE,
        false,
        "Empty -o x.c files;",
    ),
    (
        Rule::Deps,
        ModuleKind::Test,
        NONE,
        true,
        "Empty -o x.c files;Whole w Device Vendor Static false;Static s Device Vendor Static false;\
         Shared h Device Vendor Shared false;Header d Device Vendor Empty false;\
         DataBin b Device Vendor Empty false;Sources files Common Empty Empty false;",
    ),
    (
        Rule::Deps,
        ModuleKind::Filegroup,
        NONE,
        true,
        "Empty -o x.c files;Sources files Common Empty Empty false;",
    ),
    (
        Rule::Plugins,
        ModuleKind::Library,
        SHARED,
        true,
        "Empty -o x.c files;Shared app Device Vendor Empty true;Shared host Device Vendor Shared true;\
         Shared test Device Vendor Empty true;Shared no Device Vendor Shared true;",
    ),
    (
        Rule::PluginsByTable,
        ModuleKind::Library,
        SHARED,
        true,
        "Empty -o x.c files;Shared app Device Vendor Empty true;Shared host Device Vendor Shared true;\
         Shared test Device Vendor Empty true;Shared no Device Vendor Shared true;",
    ),
    (
        Rule::Plugins,
        ModuleKind::Library,
        STATIC,
        true,
        "Empty -o x.c files;",
    ),
    (
        Rule::Sources,
        ModuleKind::Test,
        NONE,
        true,
        "PerSource(1) -o x.c;PerSource(2) -o files;",
    ),
    (
        Rule::Sources,
        ModuleKind::Binary,
        NONE,
        true,
        "Empty -o x.c files;",
    ),
    (
        Rule::Sources,
        ModuleKind::Defaults,
        NONE,
        true,
        "Empty -o x.c files;",
    ),
];

const PLACE: Place = Place {
    file: 1,
    line: 1,
    col: 1,
};

fn item(alloc: Global, text: &str) -> Result<Item, OutOfMemory> {
    Ok(Item {
        text: Text::from_str(alloc, text)?,
        at: PLACE,
    })
}

fn given(value: bool) -> Option<Given<bool>> {
    Some(Given { value, at: PLACE })
}

fn flags(alloc: Global, flag: &str) -> Result<GroupProps, OutOfMemory> {
    let mut group = GroupProps::empty(alloc);
    group.cflags.push(alloc, Text::from_str(alloc, flag)?)?;
    Ok(group)
}

/// The one record of all cases.
fn sample(alloc: Global, enabled: bool) -> Result<Props, OutOfMemory> {
    let mut own = Props::empty(alloc);
    own.base = flags(alloc, "-o")?;
    let base = &mut own.base;
    for (named, text) in [(false, "x.c"), (true, "files")] {
        let item = item(alloc, text)?;
        base.srcs.push(alloc, Source { named, item })?;
    }
    base.whole_static_libs.push(alloc, item(alloc, "w")?)?;
    base.static_libs.push(alloc, item(alloc, "s")?)?;
    base.shared_libs.push(alloc, item(alloc, "h")?)?;
    base.header_libs.push(alloc, item(alloc, "d")?)?;
    own.data_bins.push(alloc, item(alloc, "b")?)?;
    for host in ["app", "host", "test", "no"] {
        own.plugin_of.push(alloc, item(alloc, host)?)?;
    }
    own.test_per_src = given(true);
    let mut shared = flags(alloc, "-h")?;
    shared.enabled = given(enabled);
    own.groups.insert(GroupId::Static, flags(alloc, "-s")?)?;
    own.groups.insert(GroupId::Shared, shared)?;
    Ok(own)
}

fn named(alloc: Global, name: &str, kind: ModuleKind) -> Result<Module, OutOfMemory> {
    Ok(Module {
        name: Text::from_str(alloc, name)?,
        kind,
        dir: Path::root(alloc),
        at: PLACE,
        props: Props::empty(alloc),
    })
}

/// A module of a kind, and four others, of which the last has the name of the first.
fn modules(alloc: Global, kind: ModuleKind) -> Result<Vec<Module>, OutOfMemory>
    ensures { IfOk result (λ mods. length mods.items ≡ 5) }
{
    let mut mods = Vec::new(alloc);
    mods.push(named(alloc, "own", kind)?)?;
    mods.push(named(alloc, "app", ModuleKind::Binary)?)?;
    mods.push(named(alloc, "host", ModuleKind::Library)?)?;
    mods.push(named(alloc, "test", ModuleKind::Test)?)?;
    mods.push(named(alloc, "app", ModuleKind::Library)?)?;
    Ok(mods)
}

/// A graph of one node, without edges, for a device's vendor image.
fn graph<'m>(alloc: Global, link: Variation, own: Props) -> Result<Graph<Record<'m>>, OutOfMemory>
    ensures may { IfOk result (λ g. MayVisit (indices_in 5) g.nodes 0) }
    ensures targets { IfOk result (λ g. targets g.nodes 0 ≡ []) }
{
    let mut vars = Variations::empty(alloc);
    vars.set(Axis::Target, Variation::Target(Target::AndroidArm64));
    vars.set(Axis::Image, Variation::Vendor);
    vars.set(Axis::Link, link);
    let mut nodes = Vec::new(alloc);
    nodes.push(Node {
        module: ModuleId(0),
        vars,
        payload: Record::new(alloc, own)?,
        edges: Seq::new(Vec::new(alloc)),
    })?;
    Ok(Graph {
        nodes: Seq::new(nodes),
    })
}

fn spelled(alloc: Global, variation: Variation) -> Result<String, OutOfMemory> {
    if matches!(variation, Variation::Target(_)) {
        return Ok(String::from_str(alloc, "Device")?);
    }
    Ok(format!(in alloc; "{variation:?}")?)
}

/// The flags of a record together, and its sources.
fn add_record(alloc: Global, out: &mut String, own: &Props) -> Result<(), OutOfMemory> {
    for flag in own.base.cflags.items() {
        out.push_str(flag.as_str())?;
    }
    for source in own.base.srcs.items() {
        let text = source.item.text.as_str();
        out.push_str(format!(in alloc; " {text}")?.as_str())?;
    }
    Ok(())
}

fn add_variants(
    alloc: Global,
    out: &mut String,
    made: &Split<Record<'_>>,
) -> Result<(), OutOfMemory> {
    for (variation, record) in made.variants.as_slice() {
        out.push_str(format!(in alloc; "{variation:?} ")?.as_str())?;
        add_record(alloc, out, &record.to_props(alloc)?)?;
        out.push_str(";")?;
    }
    Ok(())
}

fn add_requests(
    alloc: Global,
    out: &mut String,
    made: &Split<Record<'_>>,
) -> Result<(), OutOfMemory> {
    for request in made.requests.as_slice() {
        let kind = request.kind;
        let name = request.name.as_str();
        let target = spelled(alloc, request.want.target)?;
        let image = request.want.image;
        let link = request.want.link;
        let reverse = request.reverse;
        let line = format!(in alloc; "{kind:?} {name} {target} {image:?} {link:?} {reverse};")?;
        out.push_str(line.as_str())?;
    }
    Ok(())
}

/// What a rule answers at the node.
fn answer<P: Drop, M: BottomUp<P>>(
    alloc: Global,
    rule: &M,
    g: &Graph<P>,
) -> Result<Split<P>, VisitError>
    requires may { MayVisit (M.accepts rule.now) g.now.nodes 0 }
    requires targets { targets g.now.nodes 0 ≡ [] }
{
    let ins: Vec<Arc<Split<P>>> = Vec::new(alloc);
    rule.visit(alloc, g, NodeId(0), &ins)
}

fn answer_of<'m>(
    alloc: Global,
    rule: Rule,
    mods: &'m [Module],
    config: &'m Config,
    g: &Graph<Record<'m>>,
) -> Result<Split<Record<'m>>, VisitError>
    requires five { length mods.now ≡ 5 }
    requires may { MayVisit (indices_in 5) g.now.nodes 0 }
    requires targets { targets g.now.nodes 0 ≡ [] }
{
    match rule {
        Rule::Link => answer(alloc, &LinkSplit::new(mods, config), g),
        Rule::Deps => answer(alloc, &DepsAsk::new(mods, config), g),
        Rule::Plugins => answer(alloc, &PluginsAsk::new(mods, config), g),
        Rule::PluginsByTable => {
            let names = module_names(alloc, mods)?;
            answer(alloc, &PluginsAsk::with_names(mods, config, &names), g)
        }
        Rule::Sources => answer(alloc, &PerSource::new(mods, config), g),
    }
}

fn said_of<'m>(
    alloc: Global,
    case: &Case,
    mods: &'m [Module],
    config: &'m Config,
) -> Result<String, OutOfMemory>
    requires { length mods.now ≡ 5 }
{
    let (rule, _, link, enabled, _) = *case;
    let g: Graph<Record<'m>> = graph(alloc, link, sample(alloc, enabled)?)?;
    let mut out = String::new(alloc);
    match answer_of(alloc, rule, mods, config, &g) {
        Ok(made) => {
            add_variants(alloc, &mut out, &made)?;
            add_requests(alloc, &mut out, &made)?;
        }
        Err(VisitError::Bad(_fault)) => out.push_str("fault")?,
        Err(VisitError::OutOfMemory) => return Err(OutOfMemory),
    }
    Ok(out)
}

fn said(alloc: Global, case: &Case) -> Result<String, OutOfMemory> {
    let mods = modules(alloc, case.1)?;
    let config = Config {
        targets: Seq::new(Vec::new(alloc)),
    };
    said_of(alloc, case, mods.as_slice(), &config)
}

fn check_cases(rt: &impl Abort, alloc: Global, cases: &[Case]) -> Result<(), Fail> {
    for (index, case) in cases.iter().enumerate() {
        assert_eq!(rt; said(alloc, case)?.as_str(), case.4, "case {index}");
    }
    Ok(())
}

#[test]
fn variants_and_requests(rt: HostRuntime) -> Result<(), Fail> {
    link_variants_differ();
    source_variants_differ();
    check_cases(&rt, rt.alloc(), &CASES)
}

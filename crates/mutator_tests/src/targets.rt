//! The variants of a node without dependencies, by both rules and through their trait. Each is written as its variation
//! and the flags of its record, where each group has one flag.
ghost use Rattle.std.specs.Prelude.{◌≡◌, [], IfOk, length};
ghost use Rattle.graph_nodes.specs.Nodes.{targets};
ghost use Rattle.mutator_rules.specs.Conditions.{MayVisit, indices_in};

use bp_faults::{ModuleId, NodeId, OutOfMemory, Path, Payload, Place, Seq, Target, Text};
use bp_props::{Given, GroupId, GroupProps, Module, ModuleKind, Multi, Props};
use module_graph::{Axis, Graph, Node, Variation, Variations, variation_name};
use module_rules::Record;
use mutator_rules::{BottomUp, Config, Split};
use std::alloc::Global;
use std::process::Abort;
use std::sync::Arc;
use std::test::Fail;
use target_mutators::laws::{image_variants_differ, target_variants_differ};
use target_mutators::{ArchSplit, ImageSplit};

const PLACE: Place = Place {
    file: 1,
    line: 1,
    col: 1,
};

/// Groups, and the flag of each.
const FLAGS: [(GroupId, &str); 13] = [
    (GroupId::ArchArm, "arm"),
    (GroupId::ArchArm64, "arm64"),
    (GroupId::ArchX86_64, "x86_64"),
    (GroupId::Lib32, "lib32"),
    (GroupId::Lib64, "lib64"),
    (GroupId::Linux, "linux"),
    (GroupId::NotWindows, "not_windows"),
    (GroupId::Android, "android"),
    (GroupId::Host, "host"),
    (GroupId::LinuxGlibc, "linux_glibc"),
    (GroupId::Named(Target::AndroidArm64), "named"),
    (GroupId::Vendor, "vendor"),
    (GroupId::Recovery, "recovery"),
];

/// What a record sets beside its flags.
#[derive(Clone, Copy)]
enum Setting {
    Enabled(bool),
    EnabledIn(GroupId, bool),
    Device(bool),
    Host(bool),
    Multilib(Multi),
    Vendor,
    VendorAvailable,
    Recovery,
    RecoveryAvailable,
}

fn given<T>(value: T) -> Option<Given<T>> {
    Some(Given { value, at: PLACE })
}

fn add_flag(alloc: Global, group: &mut GroupProps, flag: &str) -> Result<(), OutOfMemory> {
    group.cflags.push(alloc, Text::from_str(alloc, flag)?)
}

/// A group as the record has it, or an empty one.
fn group_of(alloc: Global, record: &Props, id: GroupId) -> Result<GroupProps, OutOfMemory> {
    match record.group(id) {
        Some(group) => group.copy(alloc),
        None => Ok(GroupProps::empty(alloc)),
    }
}

fn set(alloc: Global, record: &mut Props, setting: Setting) -> Result<(), OutOfMemory> {
    match setting {
        Setting::Enabled(value) => record.base.enabled = given(value),
        Setting::EnabledIn(id, value) => {
            let mut group = group_of(alloc, record, id)?;
            group.enabled = given(value);
            record.groups.insert(id, group)?;
        }
        Setting::Device(value) => record.device_supported = given(value),
        Setting::Host(value) => record.host_supported = given(value),
        Setting::Multilib(value) => record.compile_multilib = given(value),
        Setting::Vendor => record.vendor = given(true),
        Setting::VendorAvailable => record.vendor_available = given(true),
        Setting::Recovery => record.recovery = given(true),
        Setting::RecoveryAvailable => record.recovery_available = given(true),
    }
    Ok(())
}

/// Groups, each with its flag.
fn add_groups(
    alloc: Global,
    record: &mut Props,
    flags: &[(GroupId, &str)],
) -> Result<(), OutOfMemory> {
    for (id, flag) in flags {
        let mut group = GroupProps::empty(alloc);
        add_flag(alloc, &mut group, flag)?;
        record.groups.insert(*id, group)?;
    }
    Ok(())
}

fn record(alloc: Global, settings: &[Setting]) -> Result<Props, OutOfMemory> {
    let mut record = Props::empty(alloc);
    add_flag(alloc, &mut record.base, "own")?;
    add_groups(alloc, &mut record, &FLAGS)?;
    for setting in settings {
        set(alloc, &mut record, *setting)?;
    }
    Ok(record)
}

/// One module.
fn modules(alloc: Global, kind: ModuleKind) -> Result<Vec<Module>, OutOfMemory>
    ensures { IfOk result (λ mods. length mods.items ≡ 1) }
{
    let mut mods = Vec::new(alloc);
    mods.push(Module {
        name: Text::from_str(alloc, "m")?,
        kind,
        dir: Path::root(alloc),
        at: PLACE,
        props: Props::empty(alloc),
    })?;
    Ok(mods)
}

/// Its node.
fn graph<'m>(
    alloc: Global,
    target: Variation,
    record: Props,
) -> Result<Graph<Record<'m>>, OutOfMemory>
    ensures may { IfOk result (λ g. MayVisit (indices_in 1) g.nodes 0) }
    ensures alone { IfOk result (λ g. targets g.nodes 0 ≡ []) }
{
    let mut vars = Variations::empty(alloc);
    vars.set(Axis::Target, target);
    let mut nodes = Vec::new(alloc);
    nodes.push(Node {
        module: ModuleId(0),
        vars,
        payload: Record::new(alloc, record)?,
        edges: Seq::new(Vec::new(alloc)),
    })?;
    Ok(Graph {
        nodes: Seq::new(nodes),
    })
}

fn add_flags(out: &mut String, flags: &[Text]) -> Result<(), OutOfMemory> {
    for flag in flags {
        out.push_str(" ")?;
        out.push_str(flag.as_str())?;
    }
    Ok(())
}

fn shown(alloc: Global, made: &Split<Record<'_>>) -> Result<String, OutOfMemory> {
    let mut out = String::new(alloc);
    for (variation, record) in made.variants.as_slice() {
        out.push_str(variation_name(alloc, *variation)?.as_str())?;
        out.push_str(":")?;
        add_flags(&mut out, record.to_props(alloc)?.base.cflags.items())?;
        out.push_str("; ")?;
    }
    Ok(out)
}

/// What a rule answers at the node, by its trait.
fn answer<P: Drop, M: BottomUp<P>>(
    alloc: Global,
    rule: &M,
    graph: &Graph<P>,
) -> Result<Split<P>, OutOfMemory>
    requires may { MayVisit (M.accepts rule.now) graph.now.nodes 0 }
    requires alone { targets graph.now.nodes 0 ≡ [] }
{
    let ins: Vec<Arc<Split<P>>> = Vec::new(alloc);
    match rule.visit(alloc, graph, NodeId(0), &ins) {
        Ok(made) => Ok(made),
        Err(_) => Err(OutOfMemory),
    }
}

fn targets_of(alloc: Global, targets: &[Target]) -> Result<Config, OutOfMemory> {
    let mut list = Seq::new(Vec::new(alloc));
    for target in targets {
        list.push(*target)?;
    }
    Ok(Config { targets: list })
}

/// A kind of module and what it sets, for some targets, and its variants.
type ArchCase = (
    ModuleKind,
    &'static [Setting],
    &'static [Target],
    &'static str,
);

const HOST: Target = Target::LinuxGlibcX86_64;

const ARM: Target = Target::AndroidArm;

const ARM64: Target = Target::AndroidArm64;

const ARCH: [ArchCase; 13] = [
    (
        ModuleKind::Library,
        &[Setting::Host(true)],
        &[HOST, ARM, ARM64],
        "linux_glibc_x86_64: own x86_64 lib64 linux not_windows host linux_glibc; \
         android_arm: own arm lib32 linux android; android_arm64: own arm64 lib64 linux android named; ",
    ),
    (
        ModuleKind::Binary,
        &[],
        &[ARM, ARM64, HOST],
        "android_arm: own arm lib32 linux android; ",
    ),
    (
        ModuleKind::Test,
        &[Setting::Multilib(Multi::Only64)],
        &[ARM, ARM64],
        "android_arm64: own arm64 lib64 linux android named; ",
    ),
    (
        ModuleKind::Library,
        &[Setting::Multilib(Multi::Only32)],
        &[ARM64],
        "",
    ),
    (
        ModuleKind::Library,
        &[Setting::Device(false), Setting::Host(true)],
        &[ARM64, HOST],
        "linux_glibc_x86_64: own x86_64 lib64 linux not_windows host linux_glibc; ",
    ),
    (
        ModuleKind::Library,
        &[Setting::Device(false)],
        &[ARM64, HOST],
        "",
    ),
    (
        ModuleKind::Library,
        &[Setting::Enabled(false)],
        &[ARM, ARM64],
        "",
    ),
    (
        ModuleKind::Library,
        &[Setting::EnabledIn(GroupId::Lib64, false)],
        &[ARM, ARM64],
        "android_arm: own arm lib32 linux android; ",
    ),
    (
        ModuleKind::Library,
        &[
            Setting::Enabled(false),
            Setting::EnabledIn(GroupId::ArchArm, true),
        ],
        &[ARM, ARM64],
        "android_arm: own arm lib32 linux android; ",
    ),
    (
        ModuleKind::Library,
        &[
            Setting::EnabledIn(GroupId::Linux, false),
            Setting::EnabledIn(GroupId::Named(Target::AndroidArm64), true),
        ],
        &[ARM, ARM64],
        "android_arm64: own arm64 lib64 linux android named; ",
    ),
    (ModuleKind::Defaults, &[], &[ARM64], ""),
    (ModuleKind::Filegroup, &[], &[ARM64, HOST], "common: own; "),
    (
        ModuleKind::Filegroup,
        &[Setting::Enabled(false)],
        &[ARM64],
        "",
    ),
];

/// Whether the rule splits by target, and the variants that it makes.
fn targets_in<'m>(
    alloc: Global,
    mods: &'m [Module],
    config: &'m Config,
    own: Props,
) -> Result<(bool, String), OutOfMemory>
    requires { length mods.now ≡ 1 }
{
    let graph: Graph<Record<'m>> = graph(alloc, Variation::Empty, own)?;
    let rule = ArchSplit::new(mods, config);
    let is_by_target = rule.axis() == Some(Axis::Target);
    let made = answer(alloc, &rule, &graph)?;
    Ok((is_by_target, shown(alloc, &made)?))
}

fn by_targets(alloc: Global, case: &ArchCase) -> Result<(bool, String), OutOfMemory> {
    let (kind, settings, targets, _) = *case;
    let config = targets_of(alloc, targets)?;
    let mods = modules(alloc, kind)?;
    targets_in(alloc, mods.as_slice(), &config, record(alloc, settings)?)
}

fn check_targets(rt: &impl Abort, alloc: Global, cases: &[ArchCase]) -> Result<(), Fail> {
    for (index, case) in cases.iter().enumerate() {
        let (is_by_target, made) = by_targets(alloc, case)?;
        assert_eq!(rt;
            (is_by_target, made.as_str()),
            (true, case.3),
            "case {index}"
        );
    }
    Ok(())
}

#[test]
fn targets_of_modules(rt: HostRuntime) -> Result<(), Fail> {
    target_variants_differ();
    check_targets(&rt, rt.alloc(), &ARCH)
}

/// What a library for a target sets, and its variants.
type ImageCase = (Variation, &'static [Setting], &'static str);

const IMAGES: [ImageCase; 8] = [
    (Variation::Target(ARM64), &[], ": own; "),
    (
        Variation::Target(ARM64),
        &[Setting::Vendor],
        "vendor: own vendor; ",
    ),
    (
        Variation::Target(ARM64),
        &[Setting::VendorAvailable, Setting::RecoveryAvailable],
        ": own; vendor: own vendor; recovery: own recovery; ",
    ),
    (
        Variation::Target(ARM),
        &[Setting::Vendor, Setting::Recovery],
        "vendor: own vendor; recovery: own recovery; ",
    ),
    (
        Variation::Target(ARM),
        &[Setting::Recovery, Setting::VendorAvailable],
        "vendor: own vendor; recovery: own recovery; ",
    ),
    (
        Variation::Target(ARM64),
        &[
            Setting::VendorAvailable,
            Setting::EnabledIn(GroupId::Vendor, false),
        ],
        ": own; ",
    ),
    (Variation::Target(HOST), &[Setting::Vendor], ": own; "),
    (Variation::Common, &[Setting::Vendor], ": own; "),
];

/// Whether the rule splits by image, and the variants that it makes.
fn images_in<'m>(
    alloc: Global,
    mods: &'m [Module],
    config: &'m Config,
    target: Variation,
    own: Props,
) -> Result<(bool, String), OutOfMemory>
    requires { length mods.now ≡ 1 }
{
    let graph: Graph<Record<'m>> = graph(alloc, target, own)?;
    let rule = ImageSplit::new(mods, config);
    let is_by_image = rule.axis() == Some(Axis::Image);
    let made = answer(alloc, &rule, &graph)?;
    Ok((is_by_image, shown(alloc, &made)?))
}

fn by_images(alloc: Global, case: &ImageCase) -> Result<(bool, String), OutOfMemory> {
    let (target, settings, _) = *case;
    let config = targets_of(alloc, &[ARM64])?;
    let mods = modules(alloc, ModuleKind::Library)?;
    let own = record(alloc, settings)?;
    images_in(alloc, mods.as_slice(), &config, target, own)
}

fn check_images(rt: &impl Abort, alloc: Global, cases: &[ImageCase]) -> Result<(), Fail> {
    for (index, case) in cases.iter().enumerate() {
        let (is_by_image, made) = by_images(alloc, case)?;
        assert_eq!(rt;
            (is_by_image, made.as_str()),
            (true, case.2),
            "case {index}"
        );
    }
    Ok(())
}

#[test]
fn images_of_modules(rt: HostRuntime) -> Result<(), Fail> {
    image_variants_differ();
    check_images(&rt, rt.alloc(), &IMAGES)
}

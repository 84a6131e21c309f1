ghost use Rattle.std.specs.Prelude.{◌≡◌, ◌++◌, [], Some, IfOk, OnOk, length, map};
ghost use Rattle.std.specs.List.{list_any};
ghost use Rattle.std.specs.Arc.{arc_value};
ghost use Rattle.bp_faults.specs.Answers.{Answers};
ghost use Rattle.graph_nodes.specs.declared.variation.Variation.TheVariants.{Common};
ghost use Rattle.graph_nodes.specs.declared.variations.Axis.TheVariants.{Target as TargetAxis};
ghost use Rattle.graph_nodes.specs.Nodes.{targets};
ghost use Rattle.module_rules.specs.Rules.{splits};
ghost use Rattle.module_rules.specs.Shaped.{splits_shaped};
ghost use Rattle.module_rules.specs.Variants.{if_enabled};
ghost use Rattle.mutator_rules.specs.Conditions.{MayVisit, indices_in};
ghost use Rattle.target_mutators.specs.Arch.{is_supported, default_multilib, multilib_of, is_of_class, is_narrow};
ghost use Rattle.target_mutators.specs.Arch.{is_taken, is_built, target_variant, target_variants, variants_for_targets};
ghost use Rattle.target_mutators.specs.Arch.{arch_variants};
ghost use Rattle.target_mutators.specs.Groups.{with_groups};
ghost use Rattle.target_mutators.specs.Targets.{row_of, groups_of};

use crate::groups::{append_groups, with_groups};
use crate::targets::{Bits, Class, bits_group, class_groups, row_of};
use bp_faults::{NodeId, OutOfMemory, Payload, Seq, Target};
use bp_props::{GroupId, Module, ModuleKind, Multi};
use module_graph::{Graph, Node, Variation};
use module_rules::{Record, Seen, add_if_enabled, is_true_or};
use mutator_rules::{Axis, BottomUp, Config, Split};
use pass_core::VisitError;
use std::alloc::Global;
use std::marker::Model;
use std::sync::Arc;

fn is_supported(class: Class, own: &Record<'_>) -> bool
    ensures { result ≡ is_supported class own.now }
{
    match class {
        Class::Device => is_true_or(true, &own.given().device_supported),
        Class::Host => is_true_or(false, &own.given().host_supported),
    }
}

fn default_multilib(kind: ModuleKind) -> Multi
    ensures { result ≡ default_multilib kind }
{
    match kind {
        ModuleKind::Binary | ModuleKind::Test => Multi::First,
        _ => Multi::Both,
    }
}

fn multilib_of(kind: ModuleKind, own: &Record<'_>) -> Multi
    ensures { result ≡ multilib_of kind own.now }
{
    match own.given().compile_multilib {
        Some(given) => given.value,
        None => default_multilib(kind),
    }
}

pub fn is_of_class(class: Class, target: Target) -> bool
    ensures { result ≡ is_of_class class target }
{
    matches!(
        (class, row_of(target).class),
        (Class::Device, Class::Device) | (Class::Host, Class::Host)
    )
}

fn has_class(targets: &[Target], class: Class) -> bool
    ensures { result ≡ list_any (is_of_class class) targets.now }
{
    for target in targets {
        if is_of_class(class, *target) {
            return true;
        }
    }
    false
}

fn is_narrow(bits: Bits) -> bool
    ensures { result ≡ is_narrow bits }
{
    matches!(bits, Bits::Bits32)
}

fn is_taken(multi: Multi, before: &[Target], target: Target) -> bool
    ensures { result ≡ is_taken multi before.now target }
{
    let row = row_of(target);
    match multi {
        Multi::Both => true,
        Multi::First => !has_class(before, row.class),
        Multi::Only32 => is_narrow(row.bits),
        Multi::Only64 => !is_narrow(row.bits),
    }
}

fn is_built(kind: ModuleKind, own: &Record<'_>, before: &[Target], target: Target) -> bool
    ensures { result ≡ is_built kind own.now before.now target }
{
    is_supported(row_of(target).class, own) && is_taken(multilib_of(kind, own), before, target)
}

/// A record with the groups of a target appended.
fn for_target<'m>(
    alloc: Global,
    target: Target,
    own: &Record<'m>,
) -> Result<Record<'m>, OutOfMemory>
    ensures { IfOk result (λ made. made ≡ with_groups own.now (groups_of target)) }
{
    let row = row_of(target);
    let made = with_groups(alloc, own, &[row.arch, bits_group(row.bits)])?;
    let made = append_groups(alloc, made, own, class_groups(row.class))?;
    append_groups(alloc, made, own, &[GroupId::Named(target)])
}

fn add_target<'m>(
    alloc: Global,
    variants: &mut Seq<(Variation, Record<'m>)>,
    kind: ModuleKind,
    own: &Record<'m>,
    before: &[Target],
    target: Target,
) -> Result<(), OutOfMemory>
    ensures { OnOk result (variants.new ≡ variants.old ++ target_variant kind own.now before.now target) }
{
    if is_built(kind, own, before, target) {
        let made = for_target(alloc, target, own)?;
        add_if_enabled(variants, Variation::Target(target), made)?;
    }
    Ok(())
}

fn target_variants<'m>(
    alloc: Global,
    kind: ModuleKind,
    own: &Record<'m>,
    targets: &[Target],
) -> Result<Seq<(Variation, Record<'m>)>, OutOfMemory>
    ensures { IfOk result (λ variants. variants ≡ target_variants kind own.now [] targets.now) }
{
    let mut variants = Seq::new(Vec::with_capacity(alloc, targets.len())?);
    for (index, target) in targets.iter().enumerate() {
        add_target(alloc, &mut variants, kind, own, &targets[..index], *target)?;
    }
    Ok(variants)
}

fn common_variant<'m>(
    alloc: Global,
    own: &Record<'m>,
) -> Result<Seq<(Variation, Record<'m>)>, OutOfMemory>
    ensures { IfOk result (λ variants. variants ≡ if_enabled Common own.now) }
{
    let mut variants = Seq::new(Vec::with_capacity(alloc, 1)?);
    add_if_enabled(&mut variants, Variation::Common, own.copy(alloc)?)?;
    Ok(variants)
}

fn arch_variants<'m>(
    alloc: Global,
    config: &Config,
    item: &Module,
    node: &Node<Record<'m>>,
) -> Result<Seq<(Variation, Record<'m>)>, OutOfMemory>
    ensures { IfOk result (λ variants. variants ≡ arch_variants config.now item.now node.now) }
{
    let own = &node.payload;
    match item.kind {
        ModuleKind::Defaults => Ok(Seq::new(Vec::new(alloc))),
        ModuleKind::Filegroup => common_variant(alloc, own),
        kind => target_variants(alloc, kind, own, config.targets.as_slice()),
    }
}

/// The rule `arch`: a module is split by the targets of a configuration. Contracts see it as the list of all modules
/// and the configuration.
#[derive(Drop)]
pub struct ArchSplit<'a> {
    mods: &'a [Module],
    config: &'a Config,
}

impl<'a> Model for ArchSplit<'a> {
    ghost use Rattle.std.specs.Prelude.{List};
    ghost use Rattle.bp_props.specs.declared.module.Module.{Module};
    ghost use Rattle.mutator_rules.specs.declared.config.Config.{Config};

    ghost Value = { List Module × Config };

    ghost view = { λ rule. (rule.mods.now, rule.config.now) };
}

impl<'a> ArchSplit<'a> {
    /// It takes no memory.
    pub fn new(mods: &'a [Module], c: &'a Config) -> ArchSplit<'a>
        ensures { result ≡ (mods.now, c.now) }
    {
        ArchSplit { mods, config: c }
    }
}

impl<'a, 'm> BottomUp<Record<'m>> for ArchSplit<'a> {
    ghost splits_along = { λ rule. Some TargetAxis };

    ghost meaning = { λ rule. splits (arch_variants rule.1) rule.0 };

    ghost accepts = { λ rule. indices_in (length rule.0) };

    fn axis(&self) -> Option<Axis>
        ensures { result ≡ Some TargetAxis }
    {
        Some(Axis::Target)
    }

    fn visit(
        &self,
        alloc: Global,
        g: &Graph<Record<'m>>,
        n: NodeId,
        _ins: &[Arc<Split<Record<'m>>>],
    ) -> Result<Split<Record<'m>>, VisitError>
        requires may { MayVisit (indices_in (length self.now.0)) g.now.nodes n.0 }
        requires each { length _ins.now ≡ length (targets g.now.nodes n.0) }
        ensures { Answers (λ out. out) result
            (splits (arch_variants self.now.1) self.now.0 g.now.nodes n.0 (map arc_value _ins.now)) }
    {
        let at = Seen::at(self.mods, g, n);
        Ok(Split {
            variants: arch_variants(alloc, self.config, at.module, at.node)?,
            requests: Seq::new(Vec::new(alloc)),
        })
    }

    ghost shaped = { λ rule. splits_shaped TargetAxis (arch_variants rule.1) rule.0 };
}

ghost use Rattle.std.specs.Prelude.{◌≡◌, ◌∷◌, [], Some, IfOk, IsTrue, length, map};
ghost use Rattle.std.specs.List.{list_all};
ghost use Rattle.std.specs.Arc.{arc_value};
ghost use Rattle.bp_faults.specs.Answers.{Answers};
ghost use Rattle.linkage_mutator.specs.Idle.{is_built_once};
ghost use Rattle.linkage_mutator.specs.Sources.{with_sources, variant_of_source, each_source, is_split};
ghost use Rattle.linkage_mutator.specs.Sources.{source_variants};
ghost use Rattle.graph_nodes.specs.declared.variations.Axis.TheVariants.{PerSource as SourceAxis};
ghost use Rattle.graph_nodes.specs.Numbered.{by_number};
ghost use Rattle.graph_nodes.specs.Nodes.{targets};
ghost use Rattle.module_rules.specs.Rules.{splits};
ghost use Rattle.module_rules.specs.Shaped.{splits_shaped};
ghost use Rattle.mutator_rules.specs.Conditions.{MayRun, MayVisit, indices_in};
ghost use Rattle.mutator_rules.specs.Idle.{LeavesAll};

use crate::leaving::are_built_once;
use bp_faults::{NodeId, OutOfMemory, Payload, Seq};
use bp_props::{Given, Module, ModuleKind, Props, Source};
use module_graph::{Graph, Node, Variation};
use module_rules::laws::leaves_all_by_each;
use module_rules::{Record, Seen, is_true_or};
use mutator_rules::{Axis, BottomUp, Config, Split};
use pass_core::VisitError;
use std::alloc::Global;
use std::marker::Model;
use std::sync::Arc;

/// The rule `per_src`: a test is split by its sources, if it says so. Contracts see it as the list of all modules.
#[derive(Drop)]
pub struct PerSource<'a> {
    mods: &'a [Module],
}

impl<'a> Model for PerSource<'a> {
    ghost use Rattle.std.specs.Prelude.{List};
    ghost use Rattle.bp_props.specs.declared.module.Module.{Module};

    ghost Value = { List Module };

    ghost view = { λ rule. rule.mods.now };
}

impl<'a> PerSource<'a> {
    /// The rule over some modules. It takes no memory.
    pub fn new(mods: &'a [Module], _c: &'a Config) -> PerSource<'a>
        ensures { result ≡ mods.now }
    {
        PerSource { mods }
    }

    /// Whether the rule leaves every node of a graph as it is: no node is to be built for each of its sources.
    pub fn leaves_all(&self, g: &Graph<Record<'_>>) -> bool
        requires { MayRun (indices_in (length self.now)) g.now.nodes }
        ensures alone { IsTrue result → LeavesAll (splits source_variants self.now) g.now.nodes }
        ensures exact { result ≡ list_all is_built_once g.now.nodes }
    {
        leaves_all_by_each();
        are_built_once(g.nodes.as_slice())
    }
}

/// A copy of a record with one source alone. The record has none, so that no other source is copied.
fn with_source<'m>(alloc: Global, bare: &Props, source: &Source) -> Result<Record<'m>, OutOfMemory>
    ensures { IfOk result (λ made. made ≡ with_sources bare.now (source.now ∷ [])) }
{
    let mut made = bare.copy(alloc)?;
    let mut items = Seq::new(Vec::with_capacity(alloc, 1)?);
    items.push(source.copy(alloc)?)?;
    made.base.srcs.put_items(alloc, items)?;
    Record::new(alloc, made)
}

fn by_source<'m>(
    alloc: Global,
    own: &Record<'m>,
    sources: &[Source],
) -> Result<Seq<(Variation, Record<'m>)>, OutOfMemory>
    ensures { IfOk result (λ variants. variants ≡ by_number (variant_of_source own.now) 1 sources.now) }
{
    let mut bare = own.to_props(alloc)?;
    bare.base.srcs.put_items(alloc, Seq::new(Vec::new(alloc)))?;
    let mut variants = Seq::new(Vec::with_capacity(alloc, sources.len())?);
    for (index, source) in sources.iter().enumerate() {
        let variation = Variation::PerSource(index as u64 + 1);
        variants.push((variation, with_source(alloc, &bare, source)?))?;
    }
    Ok(variants)
}

fn each_source<'m>(
    alloc: Global,
    split: bool,
    own: &Record<'m>,
    sources: &[Source],
) -> Result<Seq<(Variation, Record<'m>)>, OutOfMemory>
    ensures { IfOk result (λ variants. variants ≡ each_source split own.now sources.now) }
{
    if split && !sources.is_empty() {
        return by_source(alloc, own, sources);
    }
    let mut variants = Seq::new(Vec::with_capacity(alloc, 1)?);
    variants.push((Variation::Empty, own.copy(alloc)?))?;
    Ok(variants)
}

fn is_split(kind: ModuleKind, flag: &Option<Given<bool>>) -> bool
    ensures { result ≡ is_split kind flag.now }
{
    match kind {
        ModuleKind::Test => is_true_or(false, flag),
        _ => false,
    }
}

fn source_variants<'m>(
    alloc: Global,
    item: &Module,
    node: &Node<Record<'m>>,
) -> Result<Seq<(Variation, Record<'m>)>, OutOfMemory>
    ensures { IfOk result (λ variants. variants ≡ source_variants item.now node.now) }
{
    let own = node.payload.given();
    let split = is_split(item.kind, &own.test_per_src);
    each_source(alloc, split, &node.payload, own.base.srcs.items())
}

impl<'a, 'm> BottomUp<Record<'m>> for PerSource<'a> {
    ghost splits_along = { λ rule. Some SourceAxis };

    ghost meaning = { λ rule. splits source_variants rule };

    ghost accepts = { λ rule. indices_in (length rule) };

    fn axis(&self) -> Option<Axis>
        ensures { result ≡ Some SourceAxis }
    {
        Some(Axis::PerSource)
    }

    fn visit(
        &self,
        alloc: Global,
        g: &Graph<Record<'m>>,
        n: NodeId,
        _ins: &[Arc<Split<Record<'m>>>],
    ) -> Result<Split<Record<'m>>, VisitError>
        requires may { MayVisit (indices_in (length self.now)) g.now.nodes n.0 }
        requires each { length _ins.now ≡ length (targets g.now.nodes n.0) }
        ensures { Answers (λ out. out) result
            (splits source_variants self.now g.now.nodes n.0 (map arc_value _ins.now)) }
    {
        let at = Seen::at(self.mods, g, n);
        Ok(Split {
            variants: source_variants(alloc, at.module, at.node)?,
            requests: Seq::new(Vec::new(alloc)),
        })
    }

    ghost shaped = { λ rule. splits_shaped SourceAxis source_variants rule };
}

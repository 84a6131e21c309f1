ghost use Rattle.std.specs.Prelude.{◌≡◌, Some, IfOk, length, map};
ghost use Rattle.std.specs.Arc.{arc_value};
ghost use Rattle.bp_faults.specs.Answers.{Answers};
ghost use Rattle.linkage_mutator.specs.Links.{has_link, pic_if_linked, links_of, link_variants};
ghost use Rattle.graph_nodes.specs.declared.variations.Axis.TheVariants.{Link};
ghost use Rattle.graph_nodes.specs.Nodes.{targets};
ghost use Rattle.module_rules.specs.Groups.{with_group};
ghost use Rattle.module_rules.specs.Rules.{splits};
ghost use Rattle.module_rules.specs.Shaped.{splits_shaped};
ghost use Rattle.mutator_rules.specs.Conditions.{MayVisit, indices_in};

use bp_faults::{NodeId, OutOfMemory, Payload, Seq};
use bp_props::{GroupId, Module, ModuleKind};
use module_graph::{Graph, Node, Variation};
use module_rules::{Record, Seen, add_if_enabled, append_group};
use mutator_rules::{Axis, BottomUp, Config, Split};
use pass_core::VisitError;
use std::alloc::Global;
use std::marker::Model;
use std::sync::Arc;

/// The rule `link`: a library is split by how it is linked. Contracts see it as the list of all modules.
#[derive(Drop)]
pub struct LinkSplit<'a> {
    mods: &'a [Module],
}

impl<'a> Model for LinkSplit<'a> {
    ghost use Rattle.std.specs.Prelude.{List};
    ghost use Rattle.bp_props.specs.declared.module.Module.{Module};

    ghost Value = { List Module };

    ghost view = { λ rule. rule.mods.now };
}

impl<'a> LinkSplit<'a> {
    /// The rule over some modules. It takes no memory.
    pub fn new(mods: &'a [Module], _c: &'a Config) -> LinkSplit<'a>
        ensures { result ≡ mods.now }
    {
        LinkSplit { mods }
    }
}

/// A record with its group of an id appended.
fn with_group<'m>(alloc: Global, own: &Record<'m>, id: GroupId) -> Result<Record<'m>, OutOfMemory>
    ensures { IfOk result (λ made. made ≡ with_group own.now id) }
{
    append_group(alloc, own.copy(alloc)?, own, id)
}

/// The variants as they are linked, without the flag.
fn links_of<'m>(
    alloc: Global,
    kind: ModuleKind,
    own: &Record<'m>,
) -> Result<Seq<(Variation, Record<'m>)>, OutOfMemory>
    ensures { IfOk result (λ variants. variants ≡ links_of kind own.now) }
{
    let mut variants = Seq::new(Vec::with_capacity(alloc, 2)?);
    match kind {
        ModuleKind::Library => {
            let as_static = with_group(alloc, own, GroupId::Static)?;
            add_if_enabled(&mut variants, Variation::Static, as_static)?;
            let as_shared = with_group(alloc, own, GroupId::Shared)?;
            add_if_enabled(&mut variants, Variation::Shared, as_shared)?;
        }
        ModuleKind::LibraryStatic => variants.push((Variation::Static, own.copy(alloc)?))?,
        ModuleKind::LibraryShared => variants.push((Variation::Shared, own.copy(alloc)?))?,
        _ => variants.push((Variation::Empty, own.copy(alloc)?))?,
    }
    Ok(variants)
}

fn has_link(variation: Variation) -> bool
    ensures { result ≡ has_link variation }
{
    matches!(variation, Variation::Static | Variation::Shared)
}

fn pic_if_linked<'m>(
    alloc: Global,
    variant: (Variation, Record<'m>),
) -> Result<(Variation, Record<'m>), OutOfMemory>
    ensures { IfOk result (λ made. made ≡ pic_if_linked variant.entry) }
{
    let (variation, own) = variant;
    if has_link(variation) {
        Ok((variation, own.with_pic(alloc)?))
    } else {
        Ok((variation, own))
    }
}

fn link_variants<'m>(
    alloc: Global,
    item: &Module,
    node: &Node<Record<'m>>,
) -> Result<Seq<(Variation, Record<'m>)>, OutOfMemory>
    ensures { IfOk result (λ variants. variants ≡ link_variants item.now node.now) }
{
    let links = links_of(alloc, item.kind, &node.payload)?.into_vec();
    let mut variants = Seq::new(Vec::with_capacity(alloc, links.len())?);
    for variant in links {
        variants.push(pic_if_linked(alloc, variant)?)?;
    }
    Ok(variants)
}

impl<'a, 'm> BottomUp<Record<'m>> for LinkSplit<'a> {
    ghost splits_along = { λ rule. Some Link };

    ghost meaning = { λ rule. splits link_variants rule };

    ghost accepts = { λ rule. indices_in (length rule) };

    fn axis(&self) -> Option<Axis>
        ensures { result ≡ Some Link }
    {
        Some(Axis::Link)
    }

    fn visit(
        &self,
        alloc: Global,
        g: &Graph<Record<'m>>,
        n: NodeId,
        _ins: &[Arc<Split<Record<'m>>>],
    ) -> Result<Split<Record<'m>>, VisitError>
        requires may { MayVisit (indices_in (length self.now)) g.now.nodes n.0 }
        requires each { length _ins.now ≡ length (targets g.now.nodes n.0) }
        ensures { Answers (λ out. out) result
            (splits link_variants self.now g.now.nodes n.0 (map arc_value _ins.now)) }
    {
        let at = Seen::at(self.mods, g, n);
        Ok(Split {
            variants: link_variants(alloc, at.module, at.node)?,
            requests: Seq::new(Vec::new(alloc)),
        })
    }

    ghost shaped = { λ rule. splits_shaped Link link_variants rule };
}

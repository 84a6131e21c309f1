ghost use Rattle.std.specs.Prelude.{◌≡◌, ◌++◌, ◌∷◌, [], Some, IfOk, IsTrue, OnOk, cond, length, map};
ghost use Rattle.std.specs.List.{list_all};
ghost use Rattle.std.specs.Arc.{arc_value};
ghost use Rattle.bp_faults.specs.Answers.{Answers};
ghost use Rattle.graph_nodes.specs.declared.variation.Variation.TheVariants.{Empty};
ghost use Rattle.graph_nodes.specs.declared.variations.Axis.TheVariants.{Image};
ghost use Rattle.graph_nodes.specs.Nodes.{targets};
ghost use Rattle.module_rules.specs.Rules.{splits};
ghost use Rattle.module_rules.specs.Shaped.{splits_shaped};
ghost use Rattle.mutator_rules.specs.Conditions.{MayRun, MayVisit, indices_in};
ghost use Rattle.mutator_rules.specs.Idle.{LeavesAll};
ghost use Rattle.target_mutators.specs.Idle.{is_in_system_alone};
ghost use Rattle.target_mutators.specs.Images.{image_variant, device_images, image_variants};

use crate::groups::with_groups;
use crate::images::{is_for_device, is_in_recovery, is_in_system, is_in_vendor};
use crate::leaving::are_in_system_alone;
use bp_faults::{NodeId, OutOfMemory, Payload, Seq};
use bp_props::{GroupId, Module};
use module_graph::{Graph, Node, Variation};
use module_rules::laws::leaves_all_by_each;
use module_rules::{Record, Seen, add_if_enabled};
use mutator_rules::{Axis, BottomUp, Config, Split};
use pass_core::VisitError;
use std::alloc::Global;
use std::marker::Model;
use std::sync::Arc;

/// Adds the module as it is.
fn add_own<'m>(
    alloc: Global,
    variants: &mut Seq<(Variation, Record<'m>)>,
    is_in: bool,
    own: &Record<'m>,
) -> Result<(), OutOfMemory>
    ensures { OnOk result (variants.new ≡ variants.old ++ cond is_in ((Empty, own.now) ∷ []) []) }
{
    if is_in {
        variants.push((Variation::Empty, own.copy(alloc)?))?;
    }
    Ok(())
}

/// Adds the variant of an image.
fn add_image<'m>(
    alloc: Global,
    variants: &mut Seq<(Variation, Record<'m>)>,
    is_in: bool,
    v: Variation,
    id: GroupId,
    own: &Record<'m>,
) -> Result<(), OutOfMemory>
    ensures { OnOk result (variants.new ≡ variants.old ++ image_variant is_in v id own.now) }
{
    if is_in {
        add_if_enabled(variants, v, with_groups(alloc, own, &[id])?)?;
    }
    Ok(())
}

fn device_images<'m>(
    alloc: Global,
    own: &Record<'m>,
) -> Result<Seq<(Variation, Record<'m>)>, OutOfMemory>
    ensures { IfOk result (λ variants. variants ≡ device_images own.now) }
{
    let mut variants = Seq::new(Vec::with_capacity(alloc, 1)?);
    let to = &mut variants;
    add_own(alloc, to, is_in_system(own), own)?;
    add_image(
        alloc,
        to,
        is_in_vendor(own),
        Variation::Vendor,
        GroupId::Vendor,
        own,
    )?;
    add_image(
        alloc,
        to,
        is_in_recovery(own),
        Variation::Recovery,
        GroupId::Recovery,
        own,
    )?;
    Ok(variants)
}

fn system_alone<'m>(
    alloc: Global,
    own: &Record<'m>,
) -> Result<Seq<(Variation, Record<'m>)>, OutOfMemory>
    ensures { IfOk result (λ variants. variants ≡ (Empty, own.now) ∷ []) }
{
    let mut variants = Seq::new(Vec::with_capacity(alloc, 1)?);
    variants.push((Variation::Empty, own.copy(alloc)?))?;
    Ok(variants)
}

fn image_variants<'m>(
    alloc: Global,
    item: &Module,
    node: &Node<Record<'m>>,
) -> Result<Seq<(Variation, Record<'m>)>, OutOfMemory>
    ensures { IfOk result (λ variants. variants ≡ image_variants item.now node.now) }
{
    let own = &node.payload;
    if is_for_device(node.vars.get(Axis::Target)) {
        device_images(alloc, own)
    } else {
        system_alone(alloc, own)
    }
}

/// The rule `image`: a module for a device is split by the images on which it is installed. Contracts see it as the
/// list of all modules.
#[derive(Drop)]
pub struct ImageSplit<'a> {
    mods: &'a [Module],
}

impl<'a> Model for ImageSplit<'a> {
    ghost use Rattle.std.specs.Prelude.{List};
    ghost use Rattle.bp_props.specs.declared.module.Module.{Module};

    ghost Value = { List Module };

    ghost view = { λ rule. rule.mods.now };
}

impl<'a> ImageSplit<'a> {
    /// It takes no memory.
    pub fn new(mods: &'a [Module], _c: &'a Config) -> ImageSplit<'a>
        ensures { result ≡ mods.now }
    {
        ImageSplit { mods }
    }

    /// Whether the rule leaves every node of a graph as it is: each for a device is in the system's own image alone.
    pub fn leaves_all(&self, g: &Graph<Record<'_>>) -> bool
        requires { MayRun (indices_in (length self.now)) g.now.nodes }
        ensures alone { IsTrue result → LeavesAll (splits image_variants self.now) g.now.nodes }
        ensures exact { result ≡ list_all is_in_system_alone g.now.nodes }
    {
        leaves_all_by_each();
        are_in_system_alone(g.nodes.as_slice())
    }
}

impl<'a, 'm> BottomUp<Record<'m>> for ImageSplit<'a> {
    ghost splits_along = { λ rule. Some Image };

    ghost meaning = { λ rule. splits image_variants rule };

    ghost accepts = { λ rule. indices_in (length rule) };

    fn axis(&self) -> Option<Axis>
        ensures { result ≡ Some Image }
    {
        Some(Axis::Image)
    }

    fn visit(
        &self,
        alloc: Global,
        g: &Graph<Record<'m>>,
        n: NodeId,
        _ins: &[Arc<Split<Record<'m>>>],
    ) -> Result<Split<Record<'m>>, VisitError>
        requires may { MayVisit (indices_in (length self.now)) g.now.nodes n.0 }
        requires each { length _ins.now ≡ length (targets g.now.nodes n.0) }
        ensures { Answers (λ out. out) result
            (splits image_variants self.now g.now.nodes n.0 (map arc_value _ins.now)) }
    {
        let at = Seen::at(self.mods, g, n);
        Ok(Split {
            variants: image_variants(alloc, at.module, at.node)?,
            requests: Seq::new(Vec::new(alloc)),
        })
    }

    ghost shaped = { λ rule. splits_shaped Image image_variants rule };
}

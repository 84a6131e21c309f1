ghost use Rattle.std.specs.Prelude.{◌≡◌, ◌<◌, IfOk, None, map, length};
ghost use Rattle.std.specs.Arc.{arc_value};
ghost use Rattle.std.specs.List.{AllByRecursion};
ghost use Rattle.bp_faults.specs.Answers.{Answers};
ghost use Rattle.graph_nodes.specs.declared.graph.Edge.{Edge};
ghost use Rattle.graph_nodes.specs.Nodes.{targets};
ghost use Rattle.mutator_rules.specs.Conditions.{MayRun, MayVisit, indices_in};
ghost use Rattle.info_mutators.specs.Dependencies.{dependencies_of};
ghost use Rattle.info_mutators.specs.Info.{too_long, with_short_lists, info_meant};
ghost use Rattle.info_mutators.specs.Shaped.{info_shaped};

use crate::dependency::Dependency;
use crate::exports::exports_of;
use crate::nodes::{link_line_of, slibs_of};
use crate::paths::includes_of;
use bp_faults::{Fault, FaultKind, NodeId, OutOfMemory, Seq};
use bp_props::Module;
use module_graph::{Axis, Edge, Graph, Variations, label};
use module_rules::{Lists, Record, Seen, one_variant};
use mutator_rules::{BottomUp, Config, Split};
use pass_core::VisitError;
use std::alloc::Global;
use std::marker::Model;
use std::sync::Arc;

/// The dependencies along some edges, given what was made of each.
fn dependencies_of<'a, 'm>(
    alloc: Global,
    mods: &'a [Module],
    g: &'a Graph<Record<'m>>,
    edges: &'a [Edge],
    made: &'a [Arc<Split<Record<'m>>>],
) -> Result<Vec<Dependency<'a, 'm>>, OutOfMemory>
    requires may { MayRun (indices_in (length mods.now)) g.now.nodes }
    requires ends { AllByRecursion (λ (e : Edge). e.to.0 < length g.now.nodes) edges.now }
    requires each { length made.now ≡ length edges.now }
    ensures { IfOk result
        (λ list. list.items ≡ dependencies_of mods.now g.now.nodes edges.now (map arc_value made.now)) }
{
    let mut list = Vec::with_capacity(alloc, edges.len())?;
    for (index, edge) in edges.iter().enumerate() {
        let node = &g.nodes.as_slice()[edge.to.0 as usize];
        let name = &mods[node.module.0 as usize].name;
        list.push(Dependency::new(edge.kind, edge.to, name, &made[index]))?;
    }
    Ok(list)
}

/// The record with the four lists, where they keep their limits.
fn with_short_lists<'m>(
    alloc: Global,
    own: &Record<'m>,
    dependencies: &[Dependency],
) -> Result<Option<Record<'m>>, OutOfMemory>
    ensures { IfOk result (λ made. made ≡ with_short_lists own.now dependencies.now) }
{
    let Some(includes) = includes_of(alloc, own, dependencies)? else {
        return Ok(None);
    };
    let Some(line) = link_line_of(alloc, dependencies)? else {
        return Ok(None);
    };
    let Some(slibs) = slibs_of(alloc, dependencies)? else {
        return Ok(None);
    };
    let lists = Lists {
        exports: Seq::new(exports_of(alloc, own, dependencies)?),
        includes: Seq::new(includes),
        line: Seq::new(line),
        slibs: Seq::new(slibs),
    };
    Ok(Some(own.with_lists(alloc, lists)?))
}

fn too_long(alloc: Global, item: &Module, vars: &Variations) -> Result<Fault, OutOfMemory>
    ensures { IfOk result (λ fault. fault ≡ too_long item.now vars.now) }
{
    let subject = label(alloc, &item.name, vars)?;
    Ok(Fault::on(alloc, FaultKind::LinkTooLong, item.at, subject))
}

/// The rule `info`: what a module takes over from its dependencies. Contracts see it as the list of all modules.
#[derive(Drop)]
pub struct Info<'a> {
    mods: &'a [Module],
}

impl<'a> Model for Info<'a> {
    ghost use Rattle.std.specs.Prelude.{List};
    ghost use Rattle.bp_props.specs.declared.module.Module.{Module};

    ghost Value = { List Module };

    ghost view = { λ rule. rule.mods.now };
}

impl<'a> Info<'a> {
    /// It takes no memory.
    pub fn new(mods: &'a [Module], _c: &'a Config) -> Info<'a>
        ensures { result ≡ mods.now }
    {
        Info { mods }
    }
}

impl<'a, 'm> BottomUp<Record<'m>> for Info<'a> {
    ghost splits_along = { λ rule. None };

    ghost meaning = { λ rule. info_meant rule };

    ghost accepts = { λ rule. indices_in (length rule) };

    fn axis(&self) -> Option<Axis>
        ensures { result ≡ None }
    {
        None
    }

    fn visit(
        &self,
        alloc: Global,
        g: &Graph<Record<'m>>,
        n: NodeId,
        ins: &[Arc<Split<Record<'m>>>],
    ) -> Result<Split<Record<'m>>, VisitError>
        requires may { MayVisit (indices_in (length self.now)) g.now.nodes n.0 }
        requires each { length ins.now ≡ length (targets g.now.nodes n.0) }
        ensures { Answers (λ out. out) result (info_meant self.now g.now.nodes n.0 (map arc_value ins.now)) }
    {
        let at = Seen::at(self.mods, g, n);
        let edges = at.node.edges.as_slice();
        let dependencies = dependencies_of(alloc, self.mods, g, edges, ins)?;
        match with_short_lists(alloc, &at.node.payload, &dependencies)? {
            Some(made) => Ok(one_variant(alloc, made, Seq::new(Vec::new(alloc)))?),
            None => Err(VisitError::Bad(too_long(alloc, at.module, &at.node.vars)?)),
        }
    }

    ghost shaped = { λ rule. info_shaped rule };
}

ghost use Rattle.std.specs.Prelude.{◌≡◌, None, IfOk, IsTrue, length, map};
ghost use Rattle.std.specs.Arc.{arc_value};
ghost use Rattle.std.specs.List.{list_all};
ghost use Rattle.bp_faults.specs.Answers.{Answers};
ghost use Rattle.graph_nodes.specs.Nodes.{targets};
ghost use Rattle.defaults_mutator.specs.Idle.{has_no_edges};
ghost use Rattle.defaults_mutator.specs.Merged.{over_defaults, defaults_merged};
ghost use Rattle.module_rules.specs.Rules.{renews};
ghost use Rattle.module_rules.specs.Shaped.{renews_shaped};
ghost use Rattle.mutator_rules.specs.Conditions.{MayRun, MayVisit, indices_in};
ghost use Rattle.mutator_rules.specs.Idle.{LeavesAll};

use crate::following::followed;
use crate::leaving::have_no_edges;
use bp_faults::{NodeId, OutOfMemory, Payload, Seq};
use bp_props::{Module, ModuleKind, Props};
use module_graph::{Graph, Node};
use module_rules::laws::leaves_all_by_each;
use module_rules::{Record, Seen, one_variant};
use mutator_rules::{Axis, BottomUp, Config, Split};
use pass_core::VisitError;
use std::alloc::Global;
use std::marker::Model;
use std::sync::Arc;

/// The rule `defaults`: a module takes over the records of its defaults. Contracts see it as the list of all modules.
#[derive(Drop)]
pub struct DefaultsMerge<'a> {
    mods: &'a [Module],
}

impl<'a> Model for DefaultsMerge<'a> {
    ghost use Rattle.std.specs.Prelude.{List};
    ghost use Rattle.bp_props.specs.declared.module.Module.{Module};

    ghost Value = { List Module };

    ghost view = { λ rule. rule.mods.now };
}

impl<'a> DefaultsMerge<'a> {
    /// The rule over some modules. It takes no memory.
    pub fn new(mods: &'a [Module], _c: &'a Config) -> DefaultsMerge<'a>
        ensures { result ≡ mods.now }
    {
        DefaultsMerge { mods }
    }

    /// Whether the rule leaves every node of a graph as it is: it does where no node has edges, and says no else.
    pub fn leaves_all(&self, g: &Graph<Record<'_>>) -> bool
        requires { MayRun (indices_in (length self.now)) g.now.nodes }
        ensures alone { IsTrue result → LeavesAll (renews defaults_merged self.now) g.now.nodes }
        ensures exact { result ≡ list_all has_no_edges g.now.nodes }
    {
        leaves_all_by_each();
        have_no_edges(g.nodes.as_slice())
    }
}

/// A module's own record over that of its defaults.
fn over_defaults<'m>(
    alloc: Global,
    kind: ModuleKind,
    own: &Record<'m>,
    given: Option<Props>,
) -> Result<Record<'m>, OutOfMemory>
    ensures { IfOk result (λ made. made ≡ over_defaults kind own.now given) }
{
    match given {
        None => own.copy(alloc),
        Some(mut made) => {
            own.put_over(alloc, &mut made)?;
            made.restrict(kind);
            Record::new(alloc, made)
        }
    }
}

/// The record of a node with its defaults.
fn merge<'m>(
    alloc: Global,
    item: &Module,
    node: &Node<Record<'m>>,
    ins: &[Arc<Split<Record<'m>>>],
) -> Result<Record<'m>, OutOfMemory>
    requires { length ins.now ≡ length node.now.edges }
    ensures { IfOk result (λ made. made ≡ defaults_merged item.now node.now (map arc_value ins.now)) }
{
    let given = followed(alloc, node.edges.as_slice(), ins)?;
    over_defaults(alloc, item.kind, &node.payload, given)
}

impl<'a, 'm> BottomUp<Record<'m>> for DefaultsMerge<'a> {
    ghost splits_along = { λ rule. None };

    ghost meaning = { λ rule. renews defaults_merged rule };

    ghost accepts = { λ rule. indices_in (length rule) };

    fn axis(&self) -> Option<Axis>
        ensures { result ≡ None }
    {
        None
    }

    fn visit(
        &self,
        alloc: Global,
        g: &Graph<Record<'m>>,
        n: NodeId,
        ins: &[Arc<Split<Record<'m>>>],
    ) -> Result<Split<Record<'m>>, VisitError>
        requires may { MayVisit (indices_in (length self.now)) g.now.nodes n.0 }
        requires each { length ins.now ≡ length (targets g.now.nodes n.0) }
        ensures { Answers (λ out. out) result
            (renews defaults_merged self.now g.now.nodes n.0 (map arc_value ins.now)) }
    {
        let at = Seen::at(self.mods, g, n);
        let made = merge(alloc, at.module, at.node, ins)?;
        Ok(one_variant(alloc, made, Seq::new(Vec::new(alloc)))?)
    }

    ghost shaped = { λ rule. renews_shaped defaults_merged rule };
}

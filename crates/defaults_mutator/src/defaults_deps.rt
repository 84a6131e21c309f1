ghost use Rattle.std.specs.Prelude.{◌≡◌, None, IfOk, IsTrue, length, map};
ghost use Rattle.std.specs.List.{list_all};
ghost use Rattle.std.specs.Arc.{arc_value};
ghost use Rattle.bp_faults.specs.Answers.{Answers};
ghost use Rattle.graph_nodes.specs.Nodes.{targets};
ghost use Rattle.defaults_mutator.specs.Asked.{defaults_asked};
ghost use Rattle.defaults_mutator.specs.Idle.{names_no_defaults};
ghost use Rattle.module_rules.specs.Rules.{asks};
ghost use Rattle.module_rules.specs.Shaped.{asks_shaped};
ghost use Rattle.mutator_rules.specs.Conditions.{MayRun, MayVisit, indices_in};
ghost use Rattle.mutator_rules.specs.Idle.{LeavesAll};

use crate::leaving::name_no_defaults;
use bp_faults::{NodeId, OutOfMemory, Payload, Seq};
use bp_props::Module;
use module_graph::{EdgeKind, Graph, Node};
use module_rules::laws::leaves_all_by_each;
use module_rules::{NO_VARIATIONS, Record, Seen, ask, one_variant};
use mutator_rules::{Axis, BottomUp, Config, Request, Split};
use pass_core::VisitError;
use std::alloc::Global;
use std::marker::Model;
use std::sync::Arc;

/// The rule `defaults_deps`: a module asks for the modules that its `defaults` names. Contracts see it as the list of
/// all modules.
#[derive(Drop)]
pub struct DefaultsDeps<'a> {
    mods: &'a [Module],
}

impl<'a> Model for DefaultsDeps<'a> {
    ghost use Rattle.std.specs.Prelude.{List};
    ghost use Rattle.bp_props.specs.declared.module.Module.{Module};

    ghost Value = { List Module };

    ghost view = { λ rule. rule.mods.now };
}

impl<'a> DefaultsDeps<'a> {
    /// The rule over some modules. It takes no memory.
    pub fn new(mods: &'a [Module], _c: &'a Config) -> DefaultsDeps<'a>
        ensures { result ≡ mods.now }
    {
        DefaultsDeps { mods }
    }

    /// Whether the rule leaves every node of a graph as it is: no node names defaults.
    pub fn leaves_all(&self, g: &Graph<Record<'_>>) -> bool
        requires { MayRun (indices_in (length self.now)) g.now.nodes }
        ensures alone { IsTrue result → LeavesAll (asks defaults_asked self.now) g.now.nodes }
        ensures exact { result ≡ list_all names_no_defaults g.now.nodes }
    {
        leaves_all_by_each();
        name_no_defaults(g.nodes.as_slice())
    }
}

fn ask_defaults(
    alloc: Global,
    item: &Module,
    node: &Node<Record<'_>>,
) -> Result<Seq<Request>, OutOfMemory>
    ensures { IfOk result (λ asked. asked ≡ defaults_asked item.now node.now) }
{
    let mut asked = Seq::new(Vec::new(alloc));
    let list = &node.payload.given().defaults;
    ask(alloc, &mut asked, EdgeKind::Defaults, NO_VARIATIONS, list)?;
    Ok(asked)
}

impl<'a, 'm> BottomUp<Record<'m>> for DefaultsDeps<'a> {
    ghost splits_along = { λ rule. None };

    ghost meaning = { λ rule. asks defaults_asked rule };

    ghost accepts = { λ rule. indices_in (length rule) };

    fn axis(&self) -> Option<Axis>
        ensures { result ≡ None }
    {
        None
    }

    fn visit(
        &self,
        alloc: Global,
        g: &Graph<Record<'m>>,
        n: NodeId,
        _ins: &[Arc<Split<Record<'m>>>],
    ) -> Result<Split<Record<'m>>, VisitError>
        requires may { MayVisit (indices_in (length self.now)) g.now.nodes n.0 }
        requires each { length _ins.now ≡ length (targets g.now.nodes n.0) }
        ensures { Answers (λ out. out) result
            (asks defaults_asked self.now g.now.nodes n.0 (map arc_value _ins.now)) }
    {
        let at = Seen::at(self.mods, g, n);
        let asked = ask_defaults(alloc, at.module, at.node)?;
        Ok(one_variant(alloc, at.node.payload.copy(alloc)?, asked)?)
    }

    ghost shaped = { λ rule. asks_shaped defaults_asked rule };
}

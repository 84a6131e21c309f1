ghost use Rattle.std.specs.Prelude.{◌≡◌, ℕ, List, length, map, Result};
ghost use Rattle.std.specs.Arc.{arc_value};
ghost use Rattle.bp_faults.specs.declared.fault.Fault.{Fault};
ghost use Rattle.bp_faults.specs.Answers.{Answers};
ghost use Rattle.graph_nodes.specs.Nodes.{targets};
ghost use Rattle.mutator_rules.specs.Conditions.{MayVisit};
ghost use Rattle.mutator_rules.specs.Meaning.{TransitionMeaning};

use crate::Axis;
use bp_faults::NodeId;
use module_graph::{EdgeKind, Graph, Variation};
use pass_core::VisitError;
use std::alloc::Global;
use std::sync::Arc;

/// A rule by which a node gets the variants that it has by itself and those that its dependents want of it.
pub trait Transition<P> {
    /// What the calls of the rule answer.
    ghost meaning: { Self → TransitionMeaning P };

    /// The rule may be run over nodes of the module.
    ghost accepts: { Self → ℕ → Type 0 };

    /// The axis of the variations.
    fn axis(&self) -> Axis
        ensures { result ≡ (meaning self.now).axis };

    /// The variations that a node has by itself.
    fn split(&self, alloc: Global, g: &Graph<P>, n: NodeId) -> Result<Vec<Variation>, VisitError>
        requires { MayVisit (accepts self.now) g.now.nodes n.0 }
        ensures { Answers (λ list. list.items) result ((meaning self.now).split g.now.nodes n.0) };

    /// What the variant `v` of a node hands to its edges of a kind.
    fn outgoing(&self, g: &Graph<P>, n: NodeId, kind: EdgeKind, v: Variation) -> Variation
        requires { MayVisit (accepts self.now) g.now.nodes n.0 }
        ensures { result ≡ (meaning self.now).outgoing g.now.nodes n.0 kind v };

    /// The variation of a node that an edge with the variation `w` leads to.
    fn incoming(&self, g: &Graph<P>, n: NodeId, w: Variation) -> Variation
        requires { MayVisit (accepts self.now) g.now.nodes n.0 }
        ensures { result ≡ (meaning self.now).incoming g.now.nodes n.0 w };

    /// The payload of a node of the new graph. `ins` holds those of its edges' targets, in the order of the edges.
    fn mutate(
        &self,
        alloc: Global,
        g: &Graph<P>,
        n: NodeId,
        ins: &[Arc<P>],
    ) -> Result<P, VisitError>
        requires may { MayVisit (accepts self.now) g.now.nodes n.0 }
        requires each { length ins.now ≡ length (targets g.now.nodes n.0) }
        ensures { Answers (λ out. out) result ((meaning self.now).mutate g.now.nodes n.0 (map arc_value ins.now)) };
}

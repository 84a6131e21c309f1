ghost use Rattle.std.specs.Prelude.{◌≡◌, ℕ, List, length, map, Option, Result};
ghost use Rattle.std.specs.Arc.{arc_value};
ghost use Rattle.bp_faults.specs.declared.fault.Fault.{Fault};
ghost use Rattle.bp_faults.specs.Answers.{Answers};
ghost use Rattle.graph_nodes.specs.declared.graph.Node.{Node};
ghost use Rattle.graph_nodes.specs.declared.variations.Axis.{Axis};
ghost use Rattle.graph_nodes.specs.Nodes.{targets};
ghost use Rattle.mutator_rules.specs.declared.split.Split.{Split};
ghost use Rattle.mutator_rules.specs.Conditions.{MayVisit};
ghost use Rattle.mutator_rules.specs.Shapes.{AreShaped};

use crate::{Axis, Split};
use bp_faults::NodeId;
use module_graph::Graph;
use pass_core::VisitError;
use std::alloc::Global;
use std::sync::Arc;

/// A rule that makes a node's variants out of those of its edges' targets.
pub trait BottomUp<P> {
    /// The axis along which the rule splits, if it splits.
    ghost splits_along: { Self → Option Axis };

    /// What a visit of the node answers, given the results of its edges' targets.
    ghost meaning: { Self → List (Node P) → ℕ → List (Split P) → Result (Split P) Fault };

    /// The rule may be run over nodes of the module.
    ghost accepts: { Self → ℕ → Type 0 };

    fn axis(&self) -> Option<Axis>
        ensures { result ≡ splits_along self.now };

    /// Visits a node. `ins` holds what its edges' targets made, in the order of the edges.
    fn visit(
        &self,
        alloc: Global,
        g: &Graph<P>,
        n: NodeId,
        ins: &[Arc<Split<P>>],
    ) -> Result<Split<P>, VisitError>
        requires may { MayVisit (accepts self.now) g.now.nodes n.0 }
        requires each { length ins.now ≡ length (targets g.now.nodes n.0) }
        ensures { Answers (λ out. out) result (meaning self.now g.now.nodes n.0 (map arc_value ins.now)) };

    /// Without an axis a result has one variant, and with an axis it asks nothing.
    ghost shaped: { (rule : Self) → AreShaped (splits_along rule) (meaning rule) };
}

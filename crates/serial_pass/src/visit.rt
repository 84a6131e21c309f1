ghost use Rattle.std.specs.Prelude.{ℕ, List, length, map, Result};
ghost use Rattle.std.specs.Arc.{arc_value};
ghost use Rattle.bp_faults.specs.declared.fault.Fault.{Fault};
ghost use Rattle.bp_faults.specs.Answers.{Answers};

use bp_faults::NodeId;
pub use bp_faults::Refusal as VisitError;
use std::alloc::Global;
use std::sync::Arc;

/// What a pass does at each node.
pub trait Visit {
    /// What a visit makes.
    type Out: Drop;

    /// What a visit of the node answers, given the results of its predecessors.
    ghost meaning: { Self → ℕ → List Self.Out → Result Self.Out Fault };

    /// The node may be visited with that many results.
    ghost takes: { Self → ℕ → ℕ → Type 0 };

    /// Visits a node. `ins` holds what its predecessors made, in the order of its in-edges.
    fn visit(
        &self,
        alloc: Global,
        n: NodeId,
        ins: &[Arc<Self::Out>],
    ) -> Result<Self::Out, VisitError>
        requires { takes self.now n.0 (length ins.now) }
        ensures { Answers (λ out. out) result (meaning self.now n.0 (map arc_value ins.now)) };
}

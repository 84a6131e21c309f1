ghost use Rattle.std.specs.Prelude.{◌≡◌, ◌≢◌, ℕ, IfOk};
ghost use Rattle.std.specs.List.{AllPairs};
ghost use Rattle.graph_nodes.specs.declared.graph.Edge.{Edge};
ghost use Rattle.variant_graphs.specs.Splitting.{SplitRule};

use bp_faults::{NodeId, OutOfMemory};
use module_graph::{Axis, Edge, Node, Variation};
use std::alloc::Global;

/// How a kind of mutator makes variants of the nodes of a graph, and where edges lead among them.
pub trait Splitter<P> {
    /// What the kind keeps of a variant.
    type Variant: Drop;

    /// What is made of a variant, and where edges lead.
    ghost rule: { Self → SplitRule P Self.Variant };

    /// The splitter may say where an edge of a node leads.
    ghost may_lead: { Self → ℕ → Edge → Type 0 };

    fn axis(&self) -> Axis
        ensures { result ≡ (rule self.now).axis };

    fn variation(&self, variant: &Self::Variant) -> Variation
        ensures { result ≡ (rule self.now).variation variant.now };

    /// The payload of a variant of a node. The variant is given up, so that what it holds can be moved.
    fn payload(
        &self,
        alloc: Global,
        node: &Node<P>,
        variant: Self::Variant,
    ) -> Result<P, OutOfMemory>
        ensures { IfOk result (λ payload. payload ≡ (rule self.now).payload node.now variant) };

    /// The index, among the variants of its target, to which an edge leads from the variant of node `n` with `v`.
    ///
    /// `theirs` has the variations of the target. `index` is that of the variant among those of `n`: a good first
    /// guess.
    fn lead(
        &self,
        n: NodeId,
        v: Variation,
        edge: Edge,
        theirs: &[Variation],
        index: usize,
    ) -> Option<usize>
        requires may { may_lead self.now n.0 edge }
        requires differ { AllPairs (λ v w. v ≢ w) theirs.now }
        ensures { result ≡ (rule self.now).lead n.0 v edge theirs.now };
}

ghost use Rattle.std.specs.Prelude.{◌≡◌, ◌<◌, IfOk, length, map};
ghost use Rattle.std.specs.Arc.{arc_value};
ghost use Rattle.mutator_rules.specs.Conditions.{MayRun};
ghost use Rattle.transition_rules.specs.Passes.{wanted_variants};

use bp_faults::{NodeId, OutOfMemory, Payload, Seq};
use module_graph::{Axis, Edge, Graph, Node, Variation};
use mutator_rules::Transition;
use std::alloc::Global;
use std::sync::Arc;
use variant_graphs::{Splitter, index_in};

/// How variants are made by the variations of the nodes: each has its node's payload, and its edges lead to the
/// variants that are wanted along them.
pub struct WantedVariants<'a, 'b, P, M> {
    pub graph: &'a Graph<P>,
    pub rule: &'b M,
}

impl<'a, 'b, P, M> Drop for WantedVariants<'a, 'b, P, M> {
    fn drop(self) {
        let Self { graph: _, rule: _ } = self;
    }
}

impl<'a, 'b, P: Payload, M: Transition<P>> Splitter<P> for WantedVariants<'a, 'b, P, M> {
    type Variant = Variation;

    ghost rule = { λ s. wanted_variants (M.meaning s.rule.now) s.graph.now.nodes };

    ghost may_lead = { λ s n e. MayRun (M.accepts s.rule.now) s.graph.now.nodes
        × (n < length s.graph.now.nodes) × (e.to.0 < length s.graph.now.nodes) };

    fn axis(&self) -> Axis {
        self.rule.axis()
    }

    fn variation(&self, variant: &Variation) -> Variation {
        *variant
    }

    fn payload(
        &self,
        alloc: Global,
        node: &Node<P>,
        _variant: Variation,
    ) -> Result<P, OutOfMemory> {
        node.payload.copy(alloc)
    }

    fn lead(
        &self,
        n: NodeId,
        v: Variation,
        edge: Edge,
        theirs: &[Variation],
        index: usize,
    ) -> Option<usize> {
        let handed = self.rule.outgoing(self.graph, n, edge.kind, v);
        index_in(
            theirs,
            self.rule.incoming(self.graph, edge.to, handed),
            index,
        )
    }
}

/// A list out of its box: moved where nobody else holds it, else a copy.
fn list_of(alloc: Global, shared: Arc<Seq<Variation>>) -> Result<Seq<Variation>, OutOfMemory>
    ensures { IfOk result (λ list. list ≡ arc_value shared) }
{
    match Arc::try_unwrap(shared) {
        Ok(list) => Ok(list),
        Err(still_shared) => {
            let mut list = Vec::new(alloc);
            list.extend_from_slice(still_shared.as_slice())?;
            Ok(Seq::new(list))
        }
    }
}

/// Lists out of their boxes.
pub fn lists_of(
    alloc: Global,
    outs: Vec<Arc<Seq<Variation>>>,
) -> Result<Vec<Seq<Variation>>, OutOfMemory>
    ensures { IfOk result (λ lists. lists.items ≡ map arc_value outs.items) }
{
    let mut lists = Vec::with_capacity(alloc, outs.len())?;
    for out in outs {
        lists.push(list_of(alloc, out)?)?;
    }
    Ok(lists)
}

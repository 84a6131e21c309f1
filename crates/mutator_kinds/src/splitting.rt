ghost use Rattle.std.specs.Prelude.{◌≡◌, ⊤};
ghost use Rattle.mutator_kinds.specs.BottomUp.{rule_along};

use bp_faults::{NodeId, OutOfMemory};
use module_graph::{Axis, Edge, Node, Variation};
use std::alloc::Global;
use variant_graphs::{Splitter, index_in};

/// Each node gets the variants of its result.
#[derive(Clone, Copy, Debug)]
pub struct SplitVariants {
    pub axis: Axis,
}

impl<P: Drop> Splitter<P> for SplitVariants {
    type Variant = (Variation, P);

    ghost rule = { λ s. rule_along s.axis };

    ghost may_lead = { λ s n e. ⊤ };

    fn axis(&self) -> Axis {
        self.axis
    }

    fn variation(&self, variant: &(Variation, P)) -> Variation {
        variant.0
    }

    fn payload(
        &self,
        _alloc: Global,
        _node: &Node<P>,
        variant: (Variation, P),
    ) -> Result<P, OutOfMemory> {
        Ok(variant.1)
    }

    fn lead(
        &self,
        _n: NodeId,
        v: Variation,
        _edge: Edge,
        theirs: &[Variation],
        index: usize,
    ) -> Option<usize> {
        if theirs.is_empty() {
            return None;
        }
        Some(index_in(theirs, v, index).unwrap_or(0))
    }
}

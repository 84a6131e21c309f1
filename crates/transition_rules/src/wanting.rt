ghost use Rattle.std.specs.Prelude.{◌≡◌, ◌<◌, IfOk, OnOk, [], length, map};
ghost use Rattle.std.specs.Arc.{arc_value};
ghost use Rattle.std.specs.List.{AllByRecursion, fold};
ghost use Rattle.mutator_rules.specs.Arrivals.{arrivals, all_arrivals};
ghost use Rattle.mutator_rules.specs.Conditions.{MayRun, MayVisit};
ghost use Rattle.transition_rules.specs.Wants.{wants_with, others_of, handed_variation, wanted_variations};
ghost use Rattle.transition_rules.specs.Wants.{variations_meant};

use crate::spelled::insert_spelled;
use bp_faults::{NodeId, OutOfMemory, Seq};
use module_graph::{EdgeKind, Graph, Variation};
use mutator_rules::laws::arrivals_come_from_nodes;
use mutator_rules::{Arriving, Transition};
use pass_core::{Visit, VisitError};
use std::alloc::Global;
use std::sync::Arc;
use variant_graphs::holds;

/// Adds a wanted variation to the others, where it isn't there yet.
fn add(
    alloc: Global,
    own: &[Variation],
    others: &mut Vec<Variation>,
    w: Variation,
) -> Result<(), OutOfMemory>
    ensures { OnOk result (others.new.items ≡ wants_with own.now others.old.items w) }
{
    if holds(own, w) || holds(others, w) {
        return Ok(());
    }
    insert_spelled(alloc, others, w)
}

/// Adds what the variants of a node want along an edge.
fn add_handed<P, M: Transition<P>>(
    alloc: Global,
    rule: &M,
    g: &Graph<P>,
    n: NodeId,
    arrival: (NodeId, EdgeKind),
    list: &[Variation],
    own: &[Variation],
    others: &mut Vec<Variation>,
) -> Result<(), OutOfMemory>
    requires may { MayRun (M.accepts rule.now) g.now.nodes }
    requires inside { n.0 < length g.now.nodes }
    requires from { arrival.0.0 < length g.now.nodes }
    ensures { OnOk result (others.new.items ≡ fold (wants_with own.now) others.old.items
        (map (handed_variation (M.meaning rule.now) g.now.nodes n.0 arrival) list.now)) }
{
    for v in list {
        let w = rule.incoming(g, n, rule.outgoing(g, arrival.0, arrival.1, *v));
        add(alloc, own, others, w)?;
    }
    Ok(())
}

/// What is wanted of a node along the edges that lead to it, beside its own variations.
fn others_wanted<P, M: Transition<P>>(
    alloc: Global,
    rule: &M,
    g: &Graph<P>,
    n: NodeId,
    arriving: &[(NodeId, EdgeKind)],
    lists: &[Arc<Seq<Variation>>],
    own: &[Variation],
) -> Result<Vec<Variation>, OutOfMemory>
    requires may { MayRun (M.accepts rule.now) g.now.nodes }
    requires inside { n.0 < length g.now.nodes }
    requires from { AllByRecursion (λ a. a.0.0 < length g.now.nodes) arriving.now }
    requires many { length lists.now ≡ length arriving.now }
    ensures { IfOk result (λ others. others.items
        ≡ others_of own.now
        (wanted_variations (M.meaning rule.now) g.now.nodes n.0 arriving.now (map arc_value lists.now))) }
{
    let mut others = Vec::new(alloc);
    for (i, arrival) in arriving.iter().enumerate() {
        add_handed(
            alloc,
            rule,
            g,
            n,
            *arrival,
            lists[i].as_slice(),
            own,
            &mut others,
        )?;
    }
    Ok(others)
}

/// Makes the variations of each node from those of the nodes whose edges lead to it.
pub struct WantsVisit<'a, 'b, 'c, P, M> {
    pub graph: &'a Graph<P>,
    pub rule: &'b M,
    pub arriving: &'c Arriving<(NodeId, EdgeKind)>,
}

impl<'a, 'b, 'c, P, M> Drop for WantsVisit<'a, 'b, 'c, P, M> {
    fn drop(self) {
        let Self {
            graph: _,
            rule: _,
            arriving: _,
        } = self;
    }
}

impl<'a, 'b, 'c, P, M: Transition<P>> Visit for WantsVisit<'a, 'b, 'c, P, M> {
    type Out = Seq<Variation>;

    ghost meaning = { λ v n lists. variations_meant (M.meaning v.rule.now) v.graph.now.nodes n lists };

    ghost takes = { λ v n count. MayVisit (M.accepts v.rule.now) v.graph.now.nodes n
        × (v.arriving.now ≡ all_arrivals v.graph.now.nodes) × (count ≡ length (arrivals v.graph.now.nodes n)) };

    fn visit(
        &self,
        alloc: Global,
        n: NodeId,
        ins: &[Arc<Seq<Variation>>],
    ) -> Result<Seq<Variation>, VisitError> {
        arrivals_come_from_nodes::<P>();
        let mut own = self.rule.split(alloc, self.graph, n)?;
        let arriving = self.arriving.at(n);
        let others = others_wanted(alloc, self.rule, self.graph, n, arriving, ins, &own)?;
        own.extend_from_slice(&others)?;
        Ok(Seq::new(own))
    }
}

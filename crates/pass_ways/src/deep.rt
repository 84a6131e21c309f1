//! An order by a search in depth: each node stands behind its predecessors, and near the last of them, so that what a
//! pass makes lies together. Nothing is proved of it: whoever takes the order tests it.

ghost use Rattle.serial_pass.specs.InEdges.{AreStarts};
ghost use Rattle.serial_pass.specs.Plans.{IsPlan};

use bp_faults::{NodeId, OutOfMemory};
use pass_core::{Plan, PlanEdge, edges_into};
use std::alloc::Global;

/// How far the search is with a node.
#[derive(Clone, Copy, PartialEq, Eq)]
enum Stage {
    Unmet,
    /// Its predecessors stand behind it on the list of what is to do.
    Met,
    Placed,
}

/// A search in depth: the nodes that are to be looked at, the next of them last, and those that are placed.
#[derive(Drop)]
struct Search {
    stages: Vec<Stage>,
    todo: Vec<NodeId>,
    order: Vec<NodeId>,
}

impl Search {
    fn stage_of(&self, n: NodeId) -> Stage {
        match self.stages.get(n.0 as usize) {
            Some(stage) => *stage,
            None => Stage::Placed,
        }
    }

    fn set_stage(&mut self, n: NodeId, stage: Stage) {
        if let Some(slot) = self.stages.get_mut(n.0 as usize) {
            *slot = stage;
        }
    }

    /// Puts the predecessors of a node that weren't met on the list, the first of them last.
    fn push_unmet(&mut self, edges: &[PlanEdge]) -> Result<(), OutOfMemory> {
        for edge in edges.iter().rev() {
            if self.stage_of(edge.from) == Stage::Unmet {
                self.todo.push(edge.from)?;
            }
        }
        Ok(())
    }

    /// Looks at the last node of the list: its predecessors come first, and then it is placed.
    fn look_at(&mut self, plan: &Plan, starts: &[u32], n: NodeId) -> Result<(), OutOfMemory>
        requires plan { IsPlan plan.now }
        requires starts { AreStarts plan.now starts.now }
    {
        match self.stage_of(n) {
            Stage::Unmet if n.0 < plan.count => {
                self.set_stage(n, Stage::Met);
                self.push_unmet(edges_into(plan, starts, n))
            }
            Stage::Met => {
                self.set_stage(n, Stage::Placed);
                let _ = self.todo.pop();
                Ok(self.order.push(n)?)
            }
            _ => {
                let _ = self.todo.pop();
                Ok(())
            }
        }
    }

    /// Whether the predecessors of a node are placed.
    fn is_ready(&self, plan: &Plan, starts: &[u32], n: NodeId) -> bool
        requires plan { IsPlan plan.now }
        requires starts { AreStarts plan.now starts.now }
    {
        n.0 < plan.count
            && edges_into(plan, starts, n)
                .iter()
                .all(|edge| self.stage_of(edge.from) == Stage::Placed)
    }

    /// Looks at nodes until none is left on the list.
    fn look_at_all(&mut self, plan: &Plan, starts: &[u32]) -> Result<(), OutOfMemory>
        requires plan { IsPlan plan.now }
        requires starts { AreStarts plan.now starts.now }
    {
        for _turn in 0..u64::MAX {
            let Some(n) = self.todo.last().copied() else {
                return Ok(());
            };
            self.look_at(plan, starts, n)?;
        }
        Ok(())
    }

    /// Places a node, and before it all that must be.
    fn place(&mut self, plan: &Plan, starts: &[u32], root: NodeId) -> Result<(), OutOfMemory>
        requires plan { IsPlan plan.now }
        requires starts { AreStarts plan.now starts.now }
    {
        if self.stage_of(root) != Stage::Unmet {
            return Ok(());
        }
        if self.is_ready(plan, starts, root) {
            self.set_stage(root, Stage::Placed);
            return Ok(self.order.push(root)?);
        }
        self.todo.push(root)?;
        self.look_at_all(plan, starts)
    }

    /// Places all nodes, the least number first.
    fn place_rising(&mut self, plan: &Plan, starts: &[u32]) -> Result<(), OutOfMemory>
        requires plan { IsPlan plan.now }
        requires starts { AreStarts plan.now starts.now }
    {
        for n in 0..plan.count {
            self.place(plan, starts, NodeId(n))?;
        }
        Ok(())
    }

    /// Places all nodes, the greatest number first.
    fn place_falling(&mut self, plan: &Plan, starts: &[u32]) -> Result<(), OutOfMemory>
        requires plan { IsPlan plan.now }
        requires starts { AreStarts plan.now starts.now }
    {
        for n in (0..plan.count).rev() {
            self.place(plan, starts, NodeId(n))?;
        }
        Ok(())
    }
}

/// Whether most edges lead to greater numbers, so that most nodes are ready in the order of their numbers.
fn rises(edges: &[PlanEdge]) -> bool {
    let rising = edges.iter().filter(|edge| edge.from.0 < edge.to.0).count();
    rising >= edges.len() / 2
}

/// The nodes of a plan, as a search in depth from each node in turn places them.
pub fn deep_order(alloc: Global, plan: &Plan, starts: &[u32]) -> Result<Vec<NodeId>, OutOfMemory>
    requires plan { IsPlan plan.now }
    requires starts { AreStarts plan.now starts.now }
{
    let count = plan.count as usize;
    let mut search = Search {
        stages: vec![in alloc; Stage::Unmet; count]?,
        todo: Vec::new(alloc),
        order: Vec::with_capacity(alloc, count)?,
    };
    if rises(plan.edges.as_slice()) {
        search.place_rising(plan, starts)?;
    } else {
        search.place_falling(plan, starts)?;
    }
    Ok(search.order)
}

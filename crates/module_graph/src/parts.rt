//! A numbering of the nodes by strong components (Tarjan, "Depth-first search and linear graph algorithms"; with one
//! mark a node, as Pearce has it). Nodes that can reach each other have one number, and every other edge leads to a
//! greater one. Of this only the length is proved: whoever takes the numbering tests it.

ghost use Rattle.std.specs.Prelude.{◌≡◌, ◌<◌, ◌^◌, length, IfOk, vec_len};

use crate::{Edge, Graph};
use bp_faults::{NodeId, OutOfMemory};
use std::alloc::Global;

/// A node whose edges are being followed: when it was met, and the first of its edges that isn't done.
#[derive(Clone, Copy)]
struct Descent {
    node: NodeId,
    met: u32,
    next: usize,
}

/// The edges of a node up to `next` are done, and `low` is the least of its mark and their targets' marks.
#[derive(Clone, Copy)]
struct Followed {
    next: usize,
    low: u32,
}

/// A search in depth. A node's mark is 0 before it is met; while it is open it is the least meeting that the node is
/// known to reach among the open nodes; in the end it is the number of the node's part.
#[derive(Drop)]
struct Search {
    marks: Vec<u32>,
    path: Vec<Descent>,
    open: Vec<NodeId>,
    met: u32,
    part: u32,
}

fn mark_of(marks: &[u32], n: NodeId) -> u32 {
    match marks.get(n.0 as usize) {
        Some(mark) => *mark,
        None => 0,
    }
}

fn edges_of<P>(g: &Graph<P>, n: NodeId) -> &[Edge] {
    match g.nodes.as_slice().get(n.0 as usize) {
        Some(node) => node.edges.as_slice(),
        None => &[],
    }
}

fn set_mark(marks: &mut Vec<u32>, n: NodeId, mark: u32)
    ensures { vec_len marks.new ≡ vec_len marks.old }
{
    if (n.0 as usize) < marks.len() {
        marks[n.0 as usize] = mark;
    }
}

/// Follows the edges of a node from the next one on, up to one whose target wasn't met.
fn follow(marks: &[u32], edges: &[Edge], descent: Descent) -> Followed {
    let mut low = mark_of(marks, descent.node);
    for i in descent.next..edges.len() {
        let mark = mark_of(marks, edges[i].to);
        if mark == 0 {
            return Followed { next: i, low };
        }
        low = low.min(mark);
    }
    Followed {
        next: edges.len(),
        low,
    }
}

impl Search {
    /// Meets a node.
    fn enter(&mut self, node: NodeId) -> Result<(), OutOfMemory>
        ensures { vec_len self.new.marks ≡ vec_len self.old.marks }
    {
        let met = self.met.wrapping_add(1);
        self.met = met;
        set_mark(&mut self.marks, node, met);
        self.open.push(node)?;
        self.path.push(Descent { node, met, next: 0 })?;
        Ok(())
    }

    /// Numbers a part: the open nodes that were met from its first node on.
    fn close(&mut self, first: NodeId)
        ensures { vec_len self.new.marks ≡ vec_len self.old.marks }
    {
        let part = self.part;
        while let Some(member) = self.open.pop() {
            set_mark(&mut self.marks, member, part);
            self.met = self.met.wrapping_sub(1);
            if member == first {
                break;
            }
        }
        self.part = part.wrapping_sub(1);
    }

    /// Goes on from the end of the path. False where there is no path any more.
    fn step<P>(&mut self, g: &Graph<P>) -> Result<bool, OutOfMemory>
        ensures { vec_len self.new.marks ≡ vec_len self.old.marks }
    {
        let Some(descent) = self.path.pop() else {
            return Ok(false);
        };
        let edges = edges_of(g, descent.node);
        let Followed { next, low } = follow(&self.marks, edges, descent);
        set_mark(&mut self.marks, descent.node, low);
        if next < edges.len() {
            self.path.push(Descent { next, ..descent })?;
            self.enter(edges[next].to)?;
        } else if low == descent.met {
            self.close(descent.node);
        }
        Ok(true)
    }

    /// Numbers the nodes that can be reached from one that wasn't met.
    fn search_from<P>(&mut self, g: &Graph<P>, root: NodeId) -> Result<(), OutOfMemory>
        ensures { vec_len self.new.marks ≡ vec_len self.old.marks }
    {
        self.enter(root)?;
        for _step in 0..u64::MAX {
            if !self.step(g)? {
                break;
            }
        }
        Ok(())
    }
}

/// A number for each node, by its strong component.
pub fn number_parts<P>(alloc: Global, g: &Graph<P>) -> Result<Vec<u32>, OutOfMemory>
    requires { length g.now.nodes < 2 ^ 32 }
    ensures { IfOk result (λ numbers. length numbers.items ≡ length g.now.nodes) }
{
    let count = g.nodes.as_slice().len();
    let mut search = Search {
        marks: vec![in alloc; 0; count]?,
        path: Vec::new(alloc),
        open: Vec::new(alloc),
        met: 0,
        part: count as u32,
    };
    for n in 0..count as u32 {
        if mark_of(&search.marks, NodeId(n)) == 0 {
            search.search_from(g, NodeId(n))?;
        }
    }
    Ok(search.marks)
}

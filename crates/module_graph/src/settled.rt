ghost use Rattle.std.specs.Prelude.{◌≡◌, ◌<◌, ◌≤◌, ℕ, length, min, slice_index, IsTrue};
ghost use Rattle.std.specs.List.{AllByRecursion};
ghost use Rattle.graph_nodes.specs.declared.graph.Edge.{Edge};
ghost use Rattle.module_graph.specs.Graphs.{IsNumbered, edges_of};
ghost use Rattle.module_graph.specs.Walks.{Returns};

use crate::{Edge, Graph, Node};
use graph_nodes::laws::one_more_item;
use pass_core::PlanEdge;

/// The lesser of the least number so far and another.
fn lesser(least: u64, number: u32) -> u64
    ensures { result ≡ min least number }
{
    least.min(u64::from(number))
}

/// The least number of the edges' targets, and `u64::MAX` where there are none.
fn least_target(numbers: &[u32], edges: &[Edge]) -> u64
    requires { AllByRecursion (λ (e : Edge). e.to.0 < length numbers.now) edges.now }
    ensures { AllByRecursion (λ (e : Edge). result ≤ slice_index numbers.now e.to.0) edges.now }
{
    let mut least = u64::MAX;
    for edge in edges {
        least = lesser(least, numbers[edge.to.0 as usize]);
    }
    least
}

/// The first of two nodes, of which the second may not count.
fn narrowed(first: u32, n: u32, counts: bool) -> u32
    ensures within { result ≤ first }
    ensures counted { IsTrue counts → result ≤ n }
{
    if counts { first.min(n) } else { first }
}

/// A node below which none can reach itself, by a numbering of the nodes.
///
/// The numbering is a hint that is tested here edge by edge, and whatever it is no node is passed over. With the
/// numbers of strong components it is the least node that can, or the count where none can: of that no clause speaks.
pub fn settled<P>(g: &Graph<P>, numbers: &[u32]) -> u32
    requires numbered { IsNumbered g.now.nodes }
    requires many { length numbers.now ≡ length g.now.nodes }
    ensures inside { result ≤ length g.now.nodes }
    ensures none { (n : ℕ) → n < result → Returns (edges_of g.now.nodes) n → ⊥ }
{
    one_more_item::<Node<P>, PlanEdge>();
    let nodes = g.nodes.as_slice();
    let count = nodes.len() as u32;
    let mut first = count;
    for n in 0..count {
        let number = u64::from(numbers[n as usize]);
        let least = least_target(numbers, nodes[n as usize].edges.as_slice());
        if least < number {
            return 0;
        }
        first = narrowed(first, n, least == number);
    }
    first
}

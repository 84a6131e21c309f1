ghost use Rattle.std.specs.Prelude.{◌≡◌, IfOk};
ghost use Rattle.bp_faults.specs.Answers.{Answers};
ghost use Rattle.reverse_deps.specs.Applied.{too_many, edges_counted};

use bp_faults::limits::MOST_EDGES;
use bp_faults::{Fault, FaultKind, OutOfMemory, Refusal, Text};
use module_graph::{Edge, Graph};
use std::alloc::Global;

fn too_many(alloc: Global, edge: &Edge) -> Result<Fault, OutOfMemory>
    ensures { IfOk result (λ fault. fault ≡ too_many edge.now) }
{
    let subject = Text::from_str(alloc, "edges")?;
    Ok(Fault::on(alloc, FaultKind::TooMany, edge.at, subject))
}

/// A graph has no more edges than it may have.
pub fn count_edges<P>(alloc: Global, g: &Graph<P>) -> Result<(), Refusal>
    ensures { Answers (λ done. done) result (edges_counted g.now.nodes) }
{
    let mut left = MOST_EDGES;
    for node in g.nodes.as_slice() {
        let edges = node.edges.as_slice();
        if let Some(beyond) = edges.get(left) {
            return Err(Refusal::Bad(too_many(alloc, beyond)?));
        }
        left -= edges.len();
    }
    Ok(())
}

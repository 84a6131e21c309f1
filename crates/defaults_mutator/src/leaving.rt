ghost use Rattle.std.specs.Prelude.{◌≡◌};
ghost use Rattle.std.specs.List.{list_all};
ghost use Rattle.defaults_mutator.specs.Idle.{has_no_edges, names_no_defaults};

use module_graph::Node;
use module_rules::Record;

fn names_no_defaults(node: &Node<Record<'_>>) -> bool
    ensures { result ≡ names_no_defaults node.now }
{
    node.payload.given().defaults.items().is_empty()
}

fn has_no_edges(node: &Node<Record<'_>>) -> bool
    ensures { result ≡ has_no_edges node.now }
{
    node.edges.as_slice().is_empty()
}

/// Whether no node names defaults.
pub fn name_no_defaults(nodes: &[Node<Record<'_>>]) -> bool
    ensures { result ≡ list_all names_no_defaults nodes.now }
{
    nodes.iter().all(|node| names_no_defaults(node))
}

/// Whether no node has edges.
pub fn have_no_edges(nodes: &[Node<Record<'_>>]) -> bool
    ensures { result ≡ list_all has_no_edges nodes.now }
{
    nodes.iter().all(|node| has_no_edges(node))
}

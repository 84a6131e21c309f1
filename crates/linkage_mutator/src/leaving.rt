ghost use Rattle.std.specs.Prelude.{◌≡◌};
ghost use Rattle.std.specs.List.{list_all};
ghost use Rattle.linkage_mutator.specs.Idle.{is_built_once, is_no_plugin};

use module_graph::Node;
use module_rules::{Record, is_true_or};

fn is_no_plugin(node: &Node<Record<'_>>) -> bool
    ensures { result ≡ is_no_plugin node.now }
{
    node.payload.given().plugin_of.items().is_empty()
}

fn is_built_once(node: &Node<Record<'_>>) -> bool
    ensures { result ≡ is_built_once node.now }
{
    !is_true_or(false, &node.payload.given().test_per_src)
}

/// Whether no node is a plugin.
pub fn are_no_plugins(nodes: &[Node<Record<'_>>]) -> bool
    ensures { result ≡ list_all is_no_plugin nodes.now }
{
    nodes.iter().all(|node| is_no_plugin(node))
}

/// Whether no node is to be built for each of its sources.
pub fn are_built_once(nodes: &[Node<Record<'_>>]) -> bool
    ensures { result ≡ list_all is_built_once nodes.now }
{
    nodes.iter().all(|node| is_built_once(node))
}

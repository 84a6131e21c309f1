ghost use Rattle.std.specs.Prelude.{◌≡◌};
ghost use Rattle.std.specs.List.{list_all};
ghost use Rattle.info_mutators.specs.Idle.{has_no_level, is_off, is_unsanitized};

use crate::asan::{is_asan, is_on};
use module_graph::{Axis, Node};
use module_rules::Record;

/// The level of a node that no level is handed to.
pub const NO_LEVEL: u32 = 10_000;

fn is_off(node: &Node<Record<'_>>) -> bool
    ensures { result ≡ is_off node.now }
{
    !is_on(&node.payload)
}

fn is_unsanitized(node: &Node<Record<'_>>) -> bool
    ensures { result ≡ is_unsanitized node.now }
{
    !is_asan(node.vars.get(Axis::Sanitize)) && !node.payload.given().asan
}

fn has_no_level(node: &Node<Record<'_>>) -> bool
    ensures { result ≡ has_no_level node.now }
{
    node.payload.level() == NO_LEVEL && node.payload.given().min_sdk_version.is_none()
}

/// Whether no node's module is on.
pub fn are_off(nodes: &[Node<Record<'_>>]) -> bool
    ensures { result ≡ list_all is_off nodes.now }
{
    nodes.iter().all(|node| is_off(node))
}

/// Whether no node is compiled with the sanitizer, and none has code of it in it.
pub fn are_unsanitized(nodes: &[Node<Record<'_>>]) -> bool
    ensures { result ≡ list_all is_unsanitized nodes.now }
{
    nodes.iter().all(|node| is_unsanitized(node))
}

/// Whether no node sets a level, and none has one.
pub fn have_no_level(nodes: &[Node<Record<'_>>]) -> bool
    ensures { result ≡ list_all has_no_level nodes.now }
{
    nodes.iter().all(|node| has_no_level(node))
}

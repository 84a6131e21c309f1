ghost use Rattle.std.specs.Prelude.{◌≡◌};
ghost use Rattle.std.specs.List.{list_all};
ghost use Rattle.target_mutators.specs.Idle.{is_in_system_alone};

use crate::images::{is_for_device, is_in_recovery, is_in_system, is_in_vendor};
use module_graph::Node;
use module_rules::Record;
use mutator_rules::Axis;

fn is_in_system_alone(node: &Node<Record<'_>>) -> bool
    ensures { result ≡ is_in_system_alone node.now }
{
    let own = &node.payload;
    !is_for_device(node.vars.get(Axis::Target))
        || is_in_system(own) && !(is_in_vendor(own) || is_in_recovery(own))
}

/// Whether each node that is for a device is in the system's own image alone.
pub fn are_in_system_alone(nodes: &[Node<Record<'_>>]) -> bool
    ensures { result ≡ list_all is_in_system_alone nodes.now }
{
    nodes.iter().all(|node| is_in_system_alone(node))
}

ghost use Rattle.std.specs.Prelude.{◌≡◌, ◌++◌, OnOk, map};

use bp_faults::{NodeId, OutOfMemory, Seq};
use mutator_rules::Request;

/// Adds what a node asks for. Most nodes ask for nothing.
pub fn ask(
    n: NodeId,
    requests: Seq<Request>,
    asked: &mut Vec<(NodeId, Request)>,
) -> Result<(), OutOfMemory>
    ensures { OnOk result (asked.new.items ≡ asked.old.items ++ map (λ r. (n, r)) requests) }
{
    if requests.as_slice().is_empty() {
        return Ok(());
    }
    for request in requests.into_vec() {
        asked.push((n, request))?;
    }
    Ok(())
}

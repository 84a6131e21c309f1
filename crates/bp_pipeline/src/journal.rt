ghost use Rattle.std.specs.Prelude.{◌≡◌, ◌++◌, OnOk};
ghost use Rattle.pass_ways.specs.Visits.{visits};

use bp_faults::{NodeId, OutOfMemory};

/// Puts the visits of a pass behind those before it.
pub fn note(
    journal: &mut Vec<(u32, NodeId)>,
    pass: u32,
    order: &[NodeId],
) -> Result<(), OutOfMemory>
    ensures { OnOk result (journal.new.items ≡ journal.old.items ++ visits pass order.now) }
{
    for n in order {
        journal.push((pass, *n))?;
    }
    Ok(())
}

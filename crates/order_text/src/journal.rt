ghost use Rattle.std.specs.Prelude.{◌≡◌, ◌++◌, IfOk, OnOk, string_bytes};
ghost use Rattle.order_text.specs.Texts.{journal_text, visit_text};
ghost use Rattle.bp_faults.specs.Characters.{ended_line};

use bp_faults::{NodeId, OutOfMemory};
use std::alloc::Global;

/// Adds the line of a visit.
fn put_visit(text: &mut String, pass: u32, node: NodeId) -> Result<(), OutOfMemory>
    ensures { OnOk result (string_bytes text.new ≡ string_bytes text.old ++ ended_line (visit_text (pass, node))) }
{
    let number = node.0;
    write!(text, "{pass} {number}\n")?;
    Ok(())
}

/// The text of a journal: a line for each visit, with the numbers of its pass and its node.
pub fn journal_text(alloc: Global, journal: &[(u32, NodeId)]) -> Result<Vec<u8>, OutOfMemory>
    ensures { IfOk result (λ text. text.items ≡ journal_text journal.now) }
{
    let mut text = String::new(alloc);
    for (pass, node) in journal {
        put_visit(&mut text, *pass, *node)?;
    }
    Ok(text.into_bytes())
}

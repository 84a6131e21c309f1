ghost use Rattle.order_text.specs.Inside.{IsNumber};
ghost use Rattle.order_text.specs.Lines.{IsEntry};

use bp_faults::NodeId;

/// The number that a text is in decimal without a sign or a leading zero.
fn number_of(text: &str) -> Option<u32>
    ensures { IsNumber text.now result }
{
    match text.as_bytes().first()? {
        b'+' => None,
        b'0' => (text.len() == 1).then_some(0),
        _ => text.parse().ok(),
    }
}

/// The visit of which a line is the text.
pub fn entry_of(line: &str) -> Option<(u32, NodeId)>
    ensures { IsEntry line.now result }
{
    let (first, second) = line.split_once(' ')?;
    let pass = number_of(first)?;
    let node = number_of(second)?;
    Some((pass, NodeId(node)))
}

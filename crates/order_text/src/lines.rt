ghost use Rattle.std.specs.Prelude.{◌≤◌, IfOk, length};
ghost use Rattle.order_text.specs.Lines.{AreLines, IsLine};

use crate::cut::first_line;
use crate::entry::entry_of;
use bp_faults::{OutOfMemory, Text};
use pass_ways::OrderLine;
use std::alloc::Global;

/// A line with its entry.
fn order_line(alloc: Global, line: &[u8]) -> Result<OrderLine, OutOfMemory>
    ensures { IfOk result (λ l. IsLine line.now l) }
{
    match str::from_utf8(line) {
        Ok(text) => Ok(OrderLine {
            entry: entry_of(text),
            text: Text::from_str(alloc, text)?,
        }),
        Err(_) => Ok(OrderLine {
            entry: None,
            text: Text::new(String::new(alloc)),
        }),
    }
}

/// The lines of an order file.
pub fn order_lines(alloc: Global, bytes: &[u8]) -> Result<Vec<OrderLine>, OutOfMemory>
    ensures lines { IfOk result (λ lines. AreLines bytes.now lines.items) }
    ensures few { IfOk result (λ lines. length lines.items ≤ length bytes.now) }
{
    let mut lines = Vec::new(alloc);
    let mut rest = bytes;
    while !rest.is_empty() {
        let (line, behind) = first_line(rest);
        lines.push(order_line(alloc, line)?)?;
        rest = behind;
    }
    Ok(lines)
}

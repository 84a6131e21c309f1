ghost use Rattle.std.specs.Prelude.{◌<◌, ◌^◌, IfOk, length};
ghost use Rattle.graph_picture.specs.Inside.{PutsLine, ReadsLines, FindsFirst, FindsOutside};
ghost use Rattle.graph_picture.specs.Lines.{HasNo, arrow_line, all_variant_lines};
ghost use Rattle.graph_picture.specs.Reading.{ReadMeans};

use crate::line::{arrow_of, first_line, variant_of};
use crate::{Arrow, Variant};
use bp_faults::OutOfMemory as Want;
use std::alloc::Global;

/// Why bytes aren't the text of a graph.
#[derive(Debug, Drop)]
pub enum ReadError {
    /// The line of this number, from 1, isn't one of a graph.
    BadLine(u64),
    OutOfMemory,
}

impl From<Want> for ReadError {
    ghost use Rattle.std.specs.Prelude.{◌≡◌};
    ghost use Rattle.graph_picture.specs.declared.read.ReadError.TheVariants.{OutOfMemory as NoMemory};

    ghost from_gives = { λ _ error. error ≡ NoMemory };

    fn from(_: Want) -> Self {
        ReadError::OutOfMemory
    }
}

/// Adds an edge to the last variant. Whether there is one.
fn put_arrow(variants: &mut Vec<Variant>, arrow: Arrow) -> Result<bool, Want>
    requires { arrow.to < 2 ^ 32 }
    ensures { IfOk result (λ put. PutsLine variants.old.items (arrow_line arrow) put variants.new.items) }
{
    match variants.last_mut() {
        Some(last) => {
            last.edges.push(arrow)?;
            Ok(true)
        }
        None => Ok(false),
    }
}

/// Adds what a line says. Whether it is the line of the next variant, or of one more edge of the last.
fn put_line(alloc: Global, variants: &mut Vec<Variant>, line: &[u8]) -> Result<bool, Want>
    requires { HasNo 10 line.now }
    ensures { IfOk result (λ put. PutsLine variants.old.items line.now put variants.new.items) }
{
    let Ok(line) = str::from_utf8(line) else {
        return Ok(false);
    };
    if let Some(arrow) = arrow_of(alloc, line)? {
        return put_arrow(variants, arrow);
    }
    match variant_of(alloc, variants.len(), line)? {
        Some(variant) => {
            variants.push(variant)?;
            Ok(true)
        }
        None => Ok(false),
    }
}

/// The variants that the lines say, wherever their edges lead.
fn read_lines(alloc: Global, bytes: &[u8]) -> Result<Vec<Variant>, ReadError>
    requires { length bytes.now < 2 ^ 32 }
    ensures { ReadsLines bytes.now result }
{
    let mut variants = Vec::new(alloc);
    let mut rest = bytes;
    let mut line = 0;
    while !rest.is_empty() {
        line += 1;
        let Some((first, behind)) = first_line(rest) else {
            return Err(ReadError::BadLine(line));
        };
        if !put_line(alloc, &mut variants, first)? {
            return Err(ReadError::BadLine(line));
        }
        rest = behind;
    }
    Ok(variants)
}

/// Which edge is the first that leads to none of so many variants.
fn first_outside(edges: &[Arrow], count: usize) -> Option<usize>
    ensures { FindsFirst count edges.now result }
{
    for (index, arrow) in edges.iter().enumerate() {
        if arrow.to as usize >= count {
            return Some(index);
        }
    }
    None
}

/// The number of the line of the first edge that leads to none of the variants.
fn outside_line(variants: &[Variant]) -> Option<u64>
    requires { length (all_variant_lines variants.now) < 2 ^ 32 }
    ensures { FindsOutside variants.now result }
{
    let mut line = 0;
    for variant in variants {
        let edges = variant.edges.as_slice();
        if let Some(index) = first_outside(edges, variants.len()) {
            return Some(line + index as u64 + 2);
        }
        line += edges.len() as u64 + 1;
    }
    None
}

/// The graph of which some bytes are the text.
pub fn read_graph(alloc: Global, bytes: &[u8]) -> Result<Vec<Variant>, ReadError>
    requires { length bytes.now < 2 ^ 32 }
    ensures { ReadMeans bytes.now result }
{
    let variants = read_lines(alloc, bytes)?;
    match outside_line(&variants) {
        Some(line) => Err(ReadError::BadLine(line)),
        None => Ok(variants),
    }
}

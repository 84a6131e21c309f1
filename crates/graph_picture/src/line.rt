ghost use Rattle.std.specs.Prelude.{◌≡◌, IfOk};
ghost use Rattle.std.specs.Option.{option_map};
ghost use Rattle.graph_picture.specs.Inside.{IsArrowOf, IsVariantOf, IsFirstLine};
ghost use Rattle.graph_picture.specs.Lines.{HasNo};

use crate::kind::kind_of;
use crate::number::number_of;
use crate::{Arrow, Variant};
use bp_faults::{OutOfMemory, Seq, Text};
use std::alloc::Global;

/// The first line without its LF, and what is behind it.
pub fn first_line(bytes: &[u8]) -> Option<(&[u8], &[u8])>
    ensures { IsFirstLine bytes.now (option_map (λ cut. (cut.0.now, cut.1.now)) result) }
{
    let end = bytes.iter().position(|byte| *byte == b'\n')?;
    Some((&bytes[..end], &bytes[end + 1..]))
}

/// The edge of which this is the line.
pub fn arrow_of(alloc: Global, line: &str) -> Result<Option<Arrow>, OutOfMemory>
    ensures { IfOk result (λ arrow. IsArrowOf line.now arrow) }
{
    let Some(words) = line.strip_prefix("  ") else {
        return Ok(None);
    };
    let Some((word, number)) = words.split_once(' ') else {
        return Ok(None);
    };
    match (kind_of(word), number_of(alloc, number)?) {
        (Some(kind), Some(to)) => Ok(Some(Arrow { kind, to })),
        _ => Ok(None),
    }
}

/// The variant of which this is the line, where it has this number. It has no edges yet.
pub fn variant_of(alloc: Global, number: usize, line: &str) -> Result<Option<Variant>, OutOfMemory>
    requires { HasNo 10 line.now }
    ensures { IfOk result (λ variant. IsVariantOf number line.now variant) }
{
    let head = format!(in alloc; "{number} ")?;
    let Some(names) = line.strip_prefix(head.as_str()) else {
        return Ok(None);
    };
    let Some((module, variation)) = names.split_once(' ') else {
        return Ok(None);
    };
    if variation.contains(' ') {
        return Ok(None);
    }
    Ok(Some(Variant {
        module: Text::from_str(alloc, module)?,
        variation: Text::from_str(alloc, variation)?,
        edges: Seq::new(Vec::new(alloc)),
    }))
}

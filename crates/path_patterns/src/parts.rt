ghost use Rattle.std.specs.Prelude.{◌≡◌, IfOk};
ghost use Rattle.dir_entries.specs.Below.{names_of};

use bp_faults::{OutOfMemory, Text};
use std::alloc::Global;

/// The components of a pattern.
pub fn parts_of(alloc: Global, tail: &str) -> Result<Vec<Text>, OutOfMemory>
    ensures { IfOk result (λ parts. parts.items ≡ names_of tail.now) }
{
    let mut parts = Vec::new(alloc);
    for part in tail.split('/') {
        parts.push(Text::from_str(alloc, part)?)?;
    }
    Ok(parts)
}

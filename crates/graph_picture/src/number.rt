ghost use Rattle.std.specs.Prelude.{IfOk};
ghost use Rattle.graph_picture.specs.Inside.{IsNumber};

use bp_faults::OutOfMemory;
use std::alloc::Global;

/// The number that a text is in decimal, without a sign or a leading zero.
pub fn number_of(alloc: Global, text: &str) -> Result<Option<u32>, OutOfMemory>
    ensures { IfOk result (λ number. IsNumber text.now number) }
{
    let Ok(number) = text.parse::<u32>() else {
        return Ok(None);
    };
    let printed = format!(in alloc; "{number}")?;
    if printed.as_str() == text {
        Ok(Some(number))
    } else {
        Ok(None)
    }
}

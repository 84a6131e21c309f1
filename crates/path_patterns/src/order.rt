ghost use Rattle.std.specs.Prelude.{IfOk, List, ℕ, ◌↔◌};
ghost use Rattle.std.specs.List.{Contains};
ghost use Rattle.std.specs.List.Sorted.{IsStrictlySortedBy};
ghost use Rattle.std.specs.Ordering.{nat_cmp};
ghost use Rattle.std.specs.Cmp.Lexicographic.{slice_cmp};

use bp_faults::{OutOfMemory, Text};

/// The same texts by their bytes, each once.
pub fn in_order(mut texts: Vec<Text>) -> Result<Vec<Text>, OutOfMemory>
    ensures order { IfOk result (λ sorted. IsStrictlySortedBy (slice_cmp nat_cmp) sorted.items) }
    ensures same { IfOk result (λ sorted. (text : List ℕ) → Contains sorted.items text ↔ Contains texts.items text) }
{
    texts.sort()?;
    texts.dedup();
    Ok(texts)
}

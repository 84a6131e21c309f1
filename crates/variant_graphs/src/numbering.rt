ghost use Rattle.std.specs.Prelude.{◌≡◌, ◌++◌, IfOk, OnOk, length, map};
ghost use Rattle.std.specs.List.{flat_map};

use crate::Splitter;
use bp_faults::{OutOfMemory, Seq};
use module_graph::Variation;
use std::alloc::Global;

/// Where the variants of each node begin among the new nodes, and the variations of all variants.
#[derive(Drop)]
pub struct Numbering {
    /// The numbers, and behind them how many variants there are: those of node `t` end where those of `t + 1` begin.
    pub begins: Vec<u32>,
    /// In the order of the new nodes.
    pub variations: Vec<Variation>,
}

/// How many variants each node has.
pub fn count_variants<B>(alloc: Global, variants: &[Seq<B>]) -> Result<Vec<usize>, OutOfMemory>
    ensures { IfOk result (λ counts. counts.items ≡ map length variants.now) }
{
    let counts = variants
        .iter()
        .map(|list| list.as_slice().len())
        .collect(alloc)?;
    Ok(counts)
}

/// Adds the variations of a node's variants.
fn add_variations<P, S: Splitter<P>>(
    s: &S,
    variants: &[S::Variant],
    variations: &mut Vec<Variation>,
) -> Result<(), OutOfMemory>
    ensures { OnOk result (variations.new.items ≡ variations.old.items ++ map (S.rule s.now).variation variants.now) }
{
    for variant in variants {
        variations.push(s.variation(variant))?;
    }
    Ok(())
}

/// The variations of all variants, node by node. There is room for `total` from the start.
pub fn variations_of<P, S: Splitter<P>>(
    alloc: Global,
    s: &S,
    variants: &[Seq<S::Variant>],
    total: usize,
) -> Result<Vec<Variation>, OutOfMemory>
    ensures { IfOk result (λ made. made.items ≡ flat_map (map (S.rule s.now).variation) variants.now) }
{
    let mut variations = Vec::with_capacity(alloc, total)?;
    for list in variants {
        add_variations(s, list.as_slice(), &mut variations)?;
    }
    Ok(variations)
}

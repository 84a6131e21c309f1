ghost use Rattle.std.specs.Prelude.{◌≡◌, IfOk, map};
ghost use Rattle.std.specs.Arc.{arc_value};
ghost use Rattle.mutator_kinds.specs.BottomUp.{variants_of};

use bp_faults::{OutOfMemory, Payload, Seq, copy_all};
use module_graph::Variation;
use mutator_rules::Split;
use std::alloc::Global;
use std::sync::Arc;

fn copy_variants<P: Payload + Drop>(
    alloc: Global,
    variants: &[(Variation, P)],
) -> Result<Vec<(Variation, P)>, OutOfMemory>
    ensures { IfOk result (λ copies. copies.items ≡ variants.now) }
{
    let mut copies = Vec::with_capacity(alloc, variants.len())?;
    for variant in variants {
        copies.push((variant.0, variant.1.copy(alloc)?))?;
    }
    Ok(copies)
}

/// A result out of its box: moved where nobody else holds it, else a copy.
pub fn split_of<P: Payload + Drop>(
    alloc: Global,
    shared: Arc<Split<P>>,
) -> Result<Split<P>, OutOfMemory>
    ensures { IfOk result (λ made. made ≡ arc_value shared) }
{
    match Arc::try_unwrap(shared) {
        Ok(made) => Ok(made),
        Err(still_shared) => {
            let variants = copy_variants(alloc, still_shared.variants.as_slice())?;
            let requests = copy_all(alloc, still_shared.requests.as_slice())?;
            Ok(Split {
                variants: Seq::new(variants),
                requests: Seq::new(requests),
            })
        }
    }
}

/// The variants of each result.
pub fn variants_of<P: Payload + Drop>(
    alloc: Global,
    outs: Vec<Arc<Split<P>>>,
) -> Result<Vec<Seq<(Variation, P)>>, OutOfMemory>
    ensures { IfOk result (λ lists. lists.items ≡ variants_of (map arc_value outs.items)) }
{
    let mut lists = Vec::with_capacity(alloc, outs.len())?;
    for out in outs {
        lists.push(split_of(alloc, out)?.variants)?;
    }
    Ok(lists)
}

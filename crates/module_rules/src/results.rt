ghost use Rattle.std.specs.Prelude.{◌≡◌, IfOk, option_copied};
ghost use Rattle.module_rules.specs.Results.{one_variant, first_record};

use crate::Record;
use bp_faults::{OutOfMemory, Seq};
use module_graph::Variation;
use mutator_rules::{Request, Split};
use std::alloc::Global;

/// A result of one variant.
pub fn one_variant<'m>(
    alloc: Global,
    record: Record<'m>,
    requests: Seq<Request>,
) -> Result<Split<Record<'m>>, OutOfMemory>
    ensures { IfOk result (λ made. made ≡ one_variant «record».entry requests) }
{
    let mut variants = Seq::new(Vec::with_capacity(alloc, 1)?);
    variants.push((Variation::Empty, record))?;
    Ok(Split { variants, requests })
}

/// The record of a result's first variant.
pub fn first_record<'a, 'm>(made: &'a Split<Record<'m>>) -> Option<&'a Record<'m>>
    ensures { option_copied result ≡ first_record made.now }
{
    match made.variants.as_slice() {
        [] => None,
        [first, ..] => Some(&first.1),
    }
}

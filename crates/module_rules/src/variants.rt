ghost use Rattle.std.specs.Prelude.{◌≡◌, ◌++◌, OnOk};
ghost use Rattle.module_rules.specs.Flags.{is_true_or, is_enabled};
ghost use Rattle.module_rules.specs.Variants.{if_enabled};

use crate::Record;
use bp_faults::{OutOfMemory, Seq};
use bp_props::Given;
use module_graph::Variation;
use std::alloc::Global;

/// What a flag says, and where it isn't set the default.
pub fn is_true_or(default: bool, flag: &Option<Given<bool>>) -> bool
    ensures { result ≡ is_true_or default flag.now }
{
    match flag {
        None => default,
        Some(given) => given.value,
    }
}

/// Whether a module is built by its record.
pub fn is_enabled(own: &Record<'_>) -> bool
    ensures { result ≡ is_enabled own.now }
{
    is_true_or(true, &own.given().base.enabled)
}

/// Adds a variant, unless its record isn't enabled.
pub fn add_if_enabled<'m>(
    variants: &mut Seq<(Variation, Record<'m>)>,
    variation: Variation,
    made: Record<'m>,
) -> Result<(), OutOfMemory>
    ensures { OnOk result (variants.new ≡ variants.old ++ if_enabled variation made.entry) }
{
    if is_enabled(&made) {
        variants.push((variation, made))?;
    }
    Ok(())
}

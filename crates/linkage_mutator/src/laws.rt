//! What holds of the two rules that split: each law is the contract of a function that does nothing.

ghost use Rattle.linkage_mutator.specs.Laws.{LinkVariantsDiffer, SourceVariantsDiffer};

use module_rules::laws::split_results_differ;

/// The variations of what `LinkSplit` makes of a node differ.
pub fn link_variants_differ()
    ensures { LinkVariantsDiffer }
{
    split_results_differ();
}

/// The variations of what `PerSource` makes of a node differ.
pub fn source_variants_differ()
    ensures { SourceVariantsDiffer }
{
    split_results_differ();
}

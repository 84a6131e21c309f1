//! What holds of the results of both rules: each law is the contract of a function that does nothing.

ghost use Rattle.target_mutators.specs.Laws.{TargetVariantsDiffer, ImageVariantsDiffer};

use module_rules::laws::split_results_differ;

/// The variations of each result of `arch` differ, where the targets of the configuration do.
pub fn target_variants_differ()
    ensures { TargetVariantsDiffer }
{
    split_results_differ();
}

/// The variations of each result of `image` differ.
pub fn image_variants_differ()
    ensures { ImageVariantsDiffer }
{
    split_results_differ();
}

//! Laws of records, graphs and files: each is the contract of a function that does nothing.

ghost use Rattle.output_forms.specs.Laws.{MergesKeepTexts, PassesKeepForms, GraphsHaveForms};
ghost use Rattle.output_forms.specs.Laws.{ListedFilesMayBeListed, LoadedModulesAreFormed, GraphsAreValid};
ghost use Rattle.output_forms.specs.Laws.{FilesOfGraphsAreWellFormed, FilesOfTreesAreWellFormed};
ghost use Rattle.output_forms.specs.Laws.{GeneratedFilesAreWellFormed, GeneratedTextsAreReadBack};
ghost use Rattle.output_forms.specs.Laws.{TextsOfTreesAreReadBack};

use bp_load::laws::lists_what_may_be;
use bp_props::Props;
use build_actions::laws::{files_are_well_formed, passes_make};
use info_mutators::laws::own_variations_differ;
use linkage_mutator::laws::{link_variants_differ, source_variants_differ};
use module_graph::Variation;
use module_graph::laws::{plans_of_graphs_are_plans, valid_plans_have_no_cycle};
use mutator_rules::Split;
use ninja_text::laws::what_was_written_is_read_back;
use serial_pass::laws::outs_are_many;
use target_mutators::laws::{image_variants_differ, target_variants_differ};
use transition_rules::laws::wants_split;
use variant_graphs::laws::{
    new_payloads_keep_modules, new_payloads_leave_axes_free, new_payloads_stay_valid,
    other_axes_stay_free, splits_keep_modules, splits_stay_valid,
};

/// Merging keeps the texts of records as they can be written.
pub fn merges_keep_texts()
    ensures { MergesKeepTexts }
{}

/// Each pass keeps the forms of a graph.
pub fn passes_keep_forms()
    ensures { PassesKeepForms }
{}

/// So do all passes in turn, from sound modules on.
pub fn graphs_have_forms()
    ensures { GraphsHaveForms }
{}

/// Files whose paths a list gives may be listed.
pub fn listed_files_may_be_listed()
    ensures { ListedFilesMayBeListed }
{
    lists_what_may_be();
}

/// Files that may be listed load as modules that can be written and are told by their names.
pub fn loaded_modules_are_formed()
    ensures { LoadedModulesAreFormed }
{}

/// Each graph on the way is valid and numbered, where the targets differ.
pub fn graphs_are_valid()
    ensures { GraphsAreValid }
{
    splits_stay_valid::<Props, (Variation, Props)>();
    splits_keep_modules::<Props, (Variation, Props)>();
    other_axes_stay_free::<Props, (Variation, Props)>();
    splits_stay_valid::<Props, Variation>();
    splits_keep_modules::<Props, Variation>();
    other_axes_stay_free::<Props, Variation>();
    wants_split::<Props>();
    own_variations_differ();
    new_payloads_stay_valid::<Props>();
    new_payloads_keep_modules::<Props>();
    new_payloads_leave_axes_free::<Props>();
    outs_are_many::<Split<Props>>();
    target_variants_differ();
    image_variants_differ();
    link_variants_differ();
    source_variants_differ();
}

/// The file of a graph on the way from formed modules is well formed.
pub fn files_of_graphs_are_well_formed()
    ensures { FilesOfGraphsAreWellFormed }
{
    graphs_are_valid();
    plans_of_graphs_are_plans::<Props>();
    valid_plans_have_no_cycle::<Props>();
    passes_make();
    files_are_well_formed();
}

/// The file that is generated of formed modules is well formed.
pub fn generated_files_are_well_formed()
    ensures { GeneratedFilesAreWellFormed }
{
    files_of_graphs_are_well_formed();
}

/// So is that of modules which were loaded of files that may be listed.
pub fn files_of_trees_are_well_formed()
    ensures { FilesOfTreesAreWellFormed }
{
    loaded_modules_are_formed();
    generated_files_are_well_formed();
}

/// Whatever `read` answers of the text that is generated of formed modules is the file that was generated, but for
/// memory.
pub fn generated_texts_are_read_back()
    ensures { GeneratedTextsAreReadBack }
{
    generated_files_are_well_formed();
    what_was_written_is_read_back();
}

/// So it is of modules which were loaded of files that may be listed.
pub fn texts_of_trees_are_read_back()
    ensures { TextsOfTreesAreReadBack }
{
    loaded_modules_are_formed();
    generated_texts_are_read_back();
}

ghost use Rattle.std.specs.Prelude.{◌≡◌};
ghost use Rattle.bp_pipeline.specs.Passes.{pass_at};

/// The number of the pass of the actions, counted from 1: it comes behind those of the mutators.
pub const ACTIONS: u32 = 13;

/// A pass of a mutator over all nodes.
#[derive(Clone, Copy, Debug, PartialEq, Eq)]
pub enum Pass {
    AskDefaults,
    MergeDefaults,
    SplitTargets,
    SplitImages,
    SplitLinks,
    AskDependencies,
    AskPlugins,
    SplitSources,
    SplitSanitized,
    MarkSanitized,
    HandLevels,
    GatherInfo,
}

/// The pass with a number, counted from 0.
pub fn pass_at(number: u32) -> Pass
    ensures { result ≡ pass_at number }
{
    match number {
        0 => Pass::AskDefaults,
        1 => Pass::MergeDefaults,
        2 => Pass::SplitTargets,
        3 => Pass::SplitImages,
        4 => Pass::SplitLinks,
        5 => Pass::AskDependencies,
        6 => Pass::AskPlugins,
        7 => Pass::SplitSources,
        8 => Pass::SplitSanitized,
        9 => Pass::MarkSanitized,
        10 => Pass::HandLevels,
        _ => Pass::GatherInfo,
    }
}

ghost use Rattle.std.specs.Prelude.{◌≤◌};
ghost use Rattle.bp_faults.specs.declared.limits.TheConstants.{MOST_SYNTHETIC_MODULES, MOST_WORKERS};

use bp_faults::limits::{MOST_SYNTHETIC_MODULES, MOST_WORKERS};

/// How many modules the tree has, and how many workers run.
#[derive(Debug, Drop)]
pub struct Size {
    pub modules: u32,
    pub workers: u32,
    ghost some: { 1 ≤ modules },
    ghost few: { modules ≤ MOST_SYNTHETIC_MODULES },
    ghost several: { 1 ≤ workers },
    ghost within: { workers ≤ MOST_WORKERS },
}

impl Size {
    /// The size within the limits that is nearest to what is asked for.
    pub fn nearest(modules: u32, workers: u32) -> Size {
        Size {
            modules: modules.clamp(1, MOST_SYNTHETIC_MODULES),
            workers: workers.clamp(1, MOST_WORKERS),
        }
    }
}

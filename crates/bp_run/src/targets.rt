ghost use Rattle.std.specs.Prelude.{◌≡◌, IfOk};
ghost use Rattle.bp_run.specs.Job.{config_of, synth_config};

use bp_faults::{OutOfMemory, Seq, Target};
use mutator_rules::Config;
use std::alloc::Global;

/// The targets of words.
pub fn config_of(alloc: Global, targets: &Seq<Target>) -> Result<Config, OutOfMemory>
    ensures { IfOk result (λ config. config ≡ config_of targets.now) }
{
    Ok(Config {
        targets: Seq::new(targets.as_slice().to_vec(alloc)?),
    })
}

/// The targets of a synthetic tree.
pub fn synth_config(alloc: Global) -> Result<Config, OutOfMemory>
    ensures { IfOk result (λ config. config ≡ synth_config) }
{
    Ok(Config {
        targets: Seq::new(vec![in alloc;
            Target::AndroidArm64,
            Target::AndroidArm,
            Target::LinuxGlibcX86_64,
        ]?),
    })
}

ghost use Rattle.std.specs.Prelude.{◌≡◌, IfSome, Ok};
ghost use Rattle.source_patterns.specs.Answers.{ExpandGives, ExpandCause};
ghost use Rattle.source_patterns.specs.Expansion.{PropsMean, ModuleMeans, ExpandMeans};
ghost use Rattle.source_patterns.specs.Walked.{PropsWalk, ModuleWalks, ExpandWalks};

use crate::ExpandError;
use crate::groups::{expand_group, expand_groups};
use bp_faults::Path;
use bp_props::{Module, Props};
use path_patterns::Directories;
use std::alloc::Global;

/// Expands the sources of a record: those that are a module's own, and then those of the groups.
fn expand_props<D: Directories>(
    alloc: Global,
    dirs: &mut D,
    dir: &Path,
    props: &mut Props,
) -> Result<(), ExpandError>
    requires ready { D.IsReady dirs.old }
    ensures gives { IfSome (D.held dirs.old) (λ held. ExpandGives (λ done. props.new)
        (PropsMean held dir.now props.old) (PropsWalk held dir.now props.old) result) }
    ensures held { D.held dirs.new ≡ D.held dirs.old }
    ensures cause { ExpandCause (D.faults dirs.old) (D.faults dirs.new) result }
    ensures kept { D.kept dirs.new ≡ D.kept dirs.old }
    ensures ready { D.IsReady dirs.new }
{
    expand_group(alloc, dirs, dir, &mut props.base)?;
    expand_groups(alloc, dirs, dir, &mut props.groups)
}

/// Expands the sources of a module.
fn expand_module<D: Directories>(
    alloc: Global,
    dirs: &mut D,
    typed: &mut Module,
) -> Result<(), ExpandError>
    requires ready { D.IsReady dirs.old }
    ensures gives { IfSome (D.held dirs.old) (λ held. ExpandGives (λ done. typed.new)
        (ModuleMeans held typed.old) (ModuleWalks held typed.old) result) }
    ensures held { D.held dirs.new ≡ D.held dirs.old }
    ensures cause { ExpandCause (D.faults dirs.old) (D.faults dirs.new) result }
    ensures kept { D.kept dirs.new ≡ D.kept dirs.old }
    ensures ready { D.IsReady dirs.new }
{
    expand_props(alloc, dirs, &typed.dir, &mut typed.props)
}

/// Expands the sources of all modules in their order. A module without patterns isn't copied.
pub fn expand_all<D: Directories>(
    alloc: Global,
    dirs: &mut D,
    mods: Vec<Module>,
) -> Result<Vec<Module>, ExpandError>
    requires ready { D.IsReady dirs.old }
    ensures gives { IfSome (D.held dirs.old) (λ held. ExpandGives (λ more. more.items)
        (ExpandMeans held mods.items) (ExpandWalks held mods.items) result) }
    ensures held { D.held dirs.new ≡ D.held dirs.old }
    ensures cause { ExpandCause (D.faults dirs.old) (D.faults dirs.new) result }
    ensures kept { D.kept dirs.new ≡ D.kept dirs.old }
    ensures ready { D.IsReady dirs.new }
{
    let mut mods = mods;
    for index in 0..mods.len() {
        expand_module(alloc, dirs, &mut mods[index])?;
    }
    Ok(mods)
}

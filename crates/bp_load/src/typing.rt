ghost use Rattle.std.specs.Prelude.{◌≡◌, ◌++◌, Ok, map};
ghost use Rattle.std.specs.Thread.{IsSync};
ghost use Rattle.std.specs.Option.{option_to_list};
ghost use Rattle.bp_faults.specs.Answers.{Answers, Leaves, then_do};
ghost use Rattle.bp_values.specs.Meaning.{raw_of};
ghost use Rattle.property_tables.specs.Meaning.{typed_module as typed_as};
ghost use Rattle.bp_load.specs.Inherited.{placed_raw};
ghost use Rattle.bp_load.specs.Loaded.{all_typed};

use crate::LoadError;
use crate::halves::{joined, share};
use bp_faults::Path;
use bp_props::Module;
use bp_values::RawModule;
use property_tables::typed;
use std::alloc::Global;
use std::thread::{Threads, join};

/// Fewer modules are typed by one worker.
const FEW_MODULES: usize = 1_024;

/// Types a module, and puts it behind others unless it is dropped.
fn put_typed(
    alloc: Global,
    modules: &mut Vec<Module>,
    dir: &Path,
    raw: &RawModule,
) -> Result<(), LoadError>
    ensures { Leaves (λ modules. modules.items) modules.new result
        (then_do (typed_as (raw_of raw.now) dir.now) (λ made. Ok (modules.old.items ++ option_to_list made))) }
{
    if let Some(module) = typed(alloc, raw, dir)? {
        modules.push(module)?;
    }
    Ok(())
}

/// Modules typed one after another, each in the directory beside it.
fn type_all(alloc: Global, raws: Vec<(Path, RawModule)>) -> Result<Vec<Module>, LoadError>
    ensures { Answers (λ modules. modules.items) result (all_typed (map placed_raw raws.items)) }
{
    let mut modules = Vec::with_capacity(alloc, raws.len())?;
    for raw in raws {
        put_typed(alloc, &mut modules, &raw.0, &raw.1)?;
    }
    Ok(modules)
}

/// Modules typed by so many workers, as `type_all` does it. Each time they are cut in two, in the proportion
/// of the workers.
#[cycle(typing)]
pub fn type_by<R: Threads + Sync>(
    rt: &R,
    alloc: Global,
    mut raws: Vec<(Path, RawModule)>,
    workers: u32,
) -> Result<Vec<Module>, LoadError>
    ensures { Answers (λ modules. modules.items) result (all_typed (map placed_raw raws.items)) }
{
    if workers < 2 || raws.len() < FEW_MODULES {
        return type_all(alloc, raws);
    }
    let some = workers / 2;
    let others = workers - some;
    let back = raws.split_off(share(raws.len(), some, workers))?;
    let type_front = move || -> Result<Vec<Module>, LoadError>
        requires { IsSync R.row }
        ensures { Answers (λ modules. modules.items) result (all_typed (map placed_raw raws.items)) }
    { type_by(rt, alloc, raws, some) };
    let type_back = move || -> Result<Vec<Module>, LoadError>
        requires { IsSync R.row }
        ensures { Answers (λ modules. modules.items) result (all_typed (map placed_raw back.items)) }
    { type_by(rt, alloc, back, others) };
    let (front, back) = join(rt, type_front, type_back);
    joined(front, back)
}

ghost use Rattle.std.specs.Prelude.{◌≡◌, ◌≤◌, length, map};
ghost use Rattle.std.specs.List.{All};
ghost use Rattle.bp_faults.specs.Answers.{Answers, Tells};
ghost use Rattle.bp_faults.specs.declared.limits.TheConstants.{LARGEST_FILE, MOST_FILES};
ghost use Rattle.bp_load.specs.Directories.{AreInFileOrder};
ghost use Rattle.bp_load.specs.Trees.{sources_given};
ghost use Rattle.bp_load.specs.Loaded.{all_named, LoadMeans};
ghost use Rattle.bp_load.specs.Opened.{values_of};

use crate::LoadError;
use crate::evaluating::evaluate_by;
use crate::names::test_names;
use crate::opened::Evaluated;
use crate::parsing::parsed_by;
use crate::typing::type_by;
use bp_faults::Path;
use bp_props::Module;
use bp_values::Scope;
use std::alloc::Global;
use std::thread::Threads;

/// What a tree loads as.
#[derive(Drop)]
pub struct Loaded {
    /// The typed modules.
    pub modules: Vec<Module>,
    /// What nobody needs any more.
    pub rest: LoadRest,
}

/// What is left of a load: the variables of the tree, with their values. It is freed where it is dropped.
///
/// A tree can have millions of variables, and to free them one by one takes time, which whoever ends soon can spare.
#[derive(Drop)]
pub struct LoadRest {
    scopes: Vec<Scope>,
}

/// Types all modules, and then tests all names.
fn typed_and_named<R: Threads + Sync>(
    rt: &R,
    alloc: Global,
    evaluated: Evaluated,
    workers: u32,
) -> Result<Loaded, LoadError>
    ensures { Answers (λ loaded. loaded.modules.items) result (all_named (values_of evaluated)) }
{
    let Evaluated { modules, scopes } = evaluated;
    let modules = type_by(rt, alloc, modules, workers)?;
    test_names(alloc, modules.as_slice())?;
    let rest = LoadRest { scopes };
    Ok(Loaded { modules, rest })
}

/// As `load`, which frees what is left: here it is handed out beside the modules.
pub fn load_with_rest<R: Threads + Sync>(
    rt: &R,
    alloc: Global,
    files: &[(Path, Vec<u8>)],
    workers: u32,
) -> Result<Loaded, LoadError>
    requires few { length files.now ≤ MOST_FILES }
    requires order { AreInFileOrder (map (λ f. f.0) (sources_given files.now)) }
    requires short { All (λ f. length f.1 ≤ LARGEST_FILE) (sources_given files.now) }
    ensures { Tells (λ loaded. loaded.modules.items) (LoadMeans (sources_given files.now)) result }
{
    let parsed = parsed_by(rt, alloc, files, 1, workers)?;
    let evaluated = evaluate_by(rt, alloc, parsed, workers)?;
    typed_and_named(rt, alloc, evaluated, workers)
}

/// All modules of a tree, in file order and then by position. The conditions are those of `raw_modules`.
///
/// Where there are none, the first fault of the first phase that has one is told: parsing of every file,
/// evaluation of every file, typing of every module, and names. In the phase of names each module in order is
/// first counted, *too many* `modules` beyond 2^17, and then compared with the earlier names, *duplicate
/// module name*. So many workers parse, evaluate and type, and one tests names; their number makes
/// no difference to the answer.
pub fn load<R: Threads + Sync>(
    rt: &R,
    alloc: Global,
    files: &[(Path, Vec<u8>)],
    workers: u32,
) -> Result<Vec<Module>, LoadError>
    requires few { length files.now ≤ MOST_FILES }
    requires order { AreInFileOrder (map (λ f. f.0) (sources_given files.now)) }
    requires short { All (λ f. length f.1 ≤ LARGEST_FILE) (sources_given files.now) }
    ensures { Tells (λ modules. modules.items) (LoadMeans (sources_given files.now)) result }
{
    match load_with_rest(rt, alloc, files, workers) {
        Ok(loaded) => Ok(loaded.modules),
        Err(refusal) => Err(refusal),
    }
}

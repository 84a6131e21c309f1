ghost use Rattle.std.specs.Prelude.{◌≡◌, [], ◌++◌, List, map, reverse, IfOk, OnOk};
ghost use Rattle.std.specs.List.Sorted.{IsStrictlySortedBy};
ghost use Rattle.bp_faults.specs.Answers.{Answers};
ghost use Rattle.bp_values.specs.Scopes.{Pairs, pairs_of};
ghost use Rattle.bp_values.specs.Meaning.{raw_of};
ghost use Rattle.bp_load.specs.Directories.{directory_cmp};
ghost use Rattle.bp_load.specs.Trees.{placed_of};
ghost use Rattle.bp_load.specs.Inherited.{in_directory, placed_raw, all_evaluated};
ghost use Rattle.bp_load.specs.Opened.{turn_of, no_turn, stay_open, names_in, IsBelow, innermost, scope_in, next_turn};
ghost use Rattle.bp_load.specs.Opened.{all_turned, evaluated_in, modules_alone, values_of};
ghost use Rattle.bp_load.specs.Halves.{JoinMeans};

use crate::LoadError;
use crate::directory::Directory;
use crate::halves::joined;
use crate::parsed::{Parsed, count_modules};
use bp_faults::{OutOfMemory, Path};
use bp_values::{RawModule, Scope, evaluate_from};
use std::alloc::Global;

/// A directory that is above the last file, or the file's own, and how many names the final scope of its file has.
#[derive(Drop)]
pub struct Open {
    directory: Directory,
    names: usize,
}

/// What is kept from file to file.
#[derive(Drop)]
pub struct Evaluation {
    // The open directories, outermost first.
    opened: Vec<Open>,
    // The final scope of the last file, or the base. The scopes of the open directories are outer parts of it.
    scope: Scope,
    // How many names the base has.
    base: usize,
    // The modules so far.
    modules: Vec<(Path, RawModule)>,
}

/// What files are evaluated to.
#[derive(Drop)]
pub struct Evaluated {
    /// The modules of all files, in order.
    pub modules: Vec<(Path, RawModule)>,
    /// The last scope of each part of the files that was evaluated by itself.
    pub scopes: Vec<Scope>,
}

/// Closes directories until one is above the other.
fn close(opened: &mut Vec<Open>, directory: &Directory)
    ensures { reverse opened.new.items ≡ stay_open directory.now (reverse opened.old.items) }
{
    while let Some(last) = opened.last() {
        if last.directory.is_above(directory) {
            return;
        }
        opened.pop();
    }
}

/// How many names the scope of the innermost directory has, or the base where none is open.
fn outer_names(opened: &[Open], base: usize) -> usize
    ensures { result ≡ names_in base (reverse opened.now) }
{
    match opened.last() {
        Some(last) => last.names,
        None => base,
    }
}

/// The scope of the innermost directory, or the base where none is open; and the modules so far.
pub fn finish(evaluation: Evaluation) -> (Scope, Vec<(Path, RawModule)>)
    ensures scope { (base : Pairs) → IsBelow base evaluation
        → pairs_of result.0 ≡ scope_in base (innermost (turn_of evaluation).opened) }
    ensures modules { map placed_raw result.1.items ≡ (turn_of evaluation).modules }
{
    let Evaluation {
        opened,
        scope,
        base,
        modules,
    } = evaluation;
    (scope.outer(outer_names(opened.as_slice(), base)), modules)
}

/// Puts modules behind others, in their directory.
fn put_modules(
    alloc: Global,
    modules: &mut Vec<(Path, RawModule)>,
    dir: &Path,
    more: Vec<RawModule>,
) -> Result<(), OutOfMemory>
    ensures { OnOk result (map placed_raw modules.new.items
        ≡ map placed_raw modules.old.items ++ in_directory dir.now (map raw_of more.items)) }
{
    for module in more {
        modules.push((dir.copy(alloc)?, module))?;
    }
    Ok(())
}

/// Evaluates a file, in the scope of its nearest ancestor directory that is open.
fn evaluate_file(
    alloc: Global,
    evaluation: Evaluation,
    file: Parsed,
) -> Result<Evaluation, LoadError>
    ensures turn { (base : Pairs) → IsBelow base evaluation
        → Answers turn_of result (next_turn base (turn_of evaluation) (placed_of file)) }
    ensures below { (base : Pairs) → IsBelow base evaluation → IfOk result (IsBelow base) }
{
    let Evaluation {
        mut opened,
        scope,
        base,
        mut modules,
    } = evaluation;
    close(&mut opened, &file.directory);
    let inherited = scope.outer(outer_names(opened.as_slice(), base));
    let (more, scope) = evaluate_from(alloc, &file.tree, inherited)?;
    put_modules(alloc, &mut modules, &file.dir, more)?;
    let Parsed { directory, .. } = file;
    let names = scope.len();
    opened.push(Open { directory, names })?;
    Ok(Evaluation {
        opened,
        scope,
        base,
        modules,
    })
}

/// How many modules files define. A count beyond any memory stays where it is.
fn count_all_modules(files: &[Parsed]) -> usize {
    let mut count: usize = 0;
    for file in files {
        count = count.saturating_add(count_modules(&file.tree));
    }
    count
}

/// Files evaluated one after another. Where no directory above a file is open, it inherits the base.
pub fn evaluate_files(
    alloc: Global,
    base: Scope,
    files: Vec<Parsed>,
) -> Result<Evaluation, LoadError>
    ensures turn { Answers turn_of result (all_turned (pairs_of base) no_turn (map placed_of files.items)) }
    ensures below { IfOk result (IsBelow (pairs_of base)) }
{
    let room = count_all_modules(files.as_slice());
    let mut evaluation = Evaluation {
        opened: Vec::new(alloc),
        base: base.len(),
        scope: base,
        modules: Vec::with_capacity(alloc, room)?,
    };
    for file in files {
        evaluation = evaluate_file(alloc, evaluation, file)?;
    }
    Ok(evaluation)
}

/// The modules of files, which stand in file order, where those that have no ancestor inherit the base.
pub fn evaluate_in(alloc: Global, base: Scope, files: Vec<Parsed>) -> Result<Evaluated, LoadError>
    requires { IsStrictlySortedBy directory_cmp (map (λ f. f.directory) (map placed_of files.items)) }
    ensures { Answers values_of result (evaluated_in (pairs_of base) [] (map placed_of files.items)) }
{
    let evaluation = evaluate_files(alloc, base, files)?;
    let Evaluation { scope, modules, .. } = evaluation;
    let scopes = vec![in alloc; scope]?;
    Ok(Evaluated { modules, scopes })
}

/// What two parts of the files were evaluated to, in order, or the first of their refusals.
pub fn join_evaluated(
    front: Result<Evaluated, LoadError>,
    back: Result<Evaluated, LoadError>,
) -> Result<Evaluated, LoadError>
    ensures { JoinMeans (modules_alone front) (modules_alone back) (modules_alone result) }
{
    let mut front = front?;
    let mut back = back?;
    front.scopes.append(&mut back.scopes)?;
    let modules = joined(Ok(front.modules), Ok(back.modules))?;
    Ok(Evaluated {
        modules,
        scopes: front.scopes,
    })
}

/// The modules of all files, which stand in file order.
pub fn evaluate_all(alloc: Global, files: Vec<Parsed>) -> Result<Vec<(Path, RawModule)>, LoadError>
    requires { IsStrictlySortedBy directory_cmp (map (λ f. f.directory) (map placed_of files.items)) }
    ensures { Answers (λ modules. map placed_raw modules.items) result (all_evaluated [] (map placed_of files.items)) }
{
    let none = Scope::empty(alloc)?;
    match evaluate_in(alloc, none, files) {
        Ok(evaluated) => Ok(evaluated.modules),
        Err(refusal) => Err(refusal),
    }
}

ghost use Rattle.std.specs.Prelude.{◌≡◌, ◌<◌, ◌≤◌, [], length, map, take, drop, IfOk};
ghost use Rattle.std.specs.List.Sorted.{IsStrictlySortedBy};
ghost use Rattle.std.specs.Thread.{IsSync};
ghost use Rattle.bp_faults.specs.Answers.{Answers};
ghost use Rattle.bp_values.specs.Scopes.{pairs_of};
ghost use Rattle.bp_load.specs.Directories.{directory_cmp};
ghost use Rattle.bp_load.specs.Trees.{placed_of};
ghost use Rattle.bp_load.specs.Inherited.{all_evaluated};
ghost use Rattle.bp_load.specs.Opened.{evaluated_in, values_of};
ghost use Rattle.bp_load.specs.Branches.{directories_of, IsTrunk, IsBranch};

use crate::LoadError;
use crate::opened::{Evaluated, evaluate_files, evaluate_in, finish, join_evaluated};
use crate::parsed::{Parsed, count_modules};
use bp_faults::OutOfMemory;
use bp_values::{Scope, Seed};
use std::alloc::Global;
use std::hash::{DefaultHasher, Hasher};
use std::thread::{Threads, join};

/// Files with fewer bytes in all are evaluated by one worker.
const FEW_BYTES: usize = 65_536;

/// The bytes of files in all.
fn size(files: &[Parsed]) -> usize {
    let mut bytes: usize = 0;
    for file in files {
        bytes = bytes.saturating_add(file.bytes);
    }
    bytes
}

/// How many first files are the trunk: each of them is above the last file, and so above all behind it.
fn trunk(files: &[Parsed]) -> usize
    ensures whole { result ≤ length files.now }
    ensures above { IsTrunk (directories_of files.now) result }
{
    let Some(last) = files.last() else {
        return 0;
    };
    let mut count = 0;
    'files: for file in files {
        if !file.directory.is_above(&last.directory) {
            return count;
        }
        count += 1;
    }
    count
}

/// Where a branch begins, so that the files in front have about so many bytes: no file in front is above the one there.
/// It is 0 where all files are of one branch.
fn cut(files: &[Parsed], share: usize) -> usize
    requires { IsStrictlySortedBy directory_cmp (directories_of files.now) }
    ensures whole { result ≤ length files.now }
    ensures branch { IsBranch (directories_of files.now) result }
{
    let mut bytes: usize = 0;
    let mut branch = 0;
    let mut best = 0;
    let mut nearest = usize::MAX;
    let mut at = 0;
    'files: for file in files {
        if !files[branch].directory.is_above(&file.directory) {
            branch = at;
            if bytes.abs_diff(share) < nearest {
                best = at;
                nearest = bytes.abs_diff(share);
            }
        }
        bytes = bytes.saturating_add(file.bytes);
        at += 1;
    }
    best
}

/// How many of the workers fall to so many bytes of all: at least one, and not all.
fn workers_for(bytes: usize, all: usize, workers: u32) -> u32
    requires { 1 < workers }
    ensures some { 0 < result }
    ensures others { result < workers }
{
    let each = (all / workers as usize).max(1);
    let some = bytes.saturating_add(each / 2) / each;
    some.clamp(1, workers as usize - 1) as u32
}

/// Whether the files in front of a cut are evaluated in more time than their base is copied in.
fn is_worth_a_copy(base: &Scope, files: &[Parsed], at: usize) -> bool
    requires { at ≤ length files.now }
{
    base.weight() < size(&files[..at])
}

/// Files cut at a place: those in front, and those behind it.
fn in_two(mut files: Vec<Parsed>, at: usize) -> Result<(Vec<Parsed>, Vec<Parsed>), OutOfMemory>
    requires whole { at ≤ length files.items }
    requires order { IsStrictlySortedBy directory_cmp (directories_of files.items) }
    ensures front { IfOk result (λ r. r.0.items ≡ take at files.items) }
    ensures back { IfOk result (λ r. r.1.items ≡ drop at files.items) }
    ensures front_order { IfOk result (λ r. IsStrictlySortedBy directory_cmp (directories_of r.0.items)) }
    ensures back_order { IfOk result (λ r. IsStrictlySortedBy directory_cmp (directories_of r.1.items)) }
{
    let back = files.split_off(at)?;
    Ok((files, back))
}

/// Files evaluated by so many workers, as `evaluate_in` does it: first the trunk, whose last scope is the base of its
/// branches.
#[cycle(evaluating)]
fn evaluate_below<R: Threads + Sync>(
    rt: &R,
    alloc: Global,
    base: Scope,
    files: Vec<Parsed>,
    workers: u32,
) -> Result<Evaluated, LoadError>
    requires { IsStrictlySortedBy directory_cmp (directories_of files.items) }
    ensures { Answers values_of result
        (evaluated_in (pairs_of base) [] (map placed_of files.items)) }
{
    if workers < 2 || size(files.as_slice()) < FEW_BYTES {
        return evaluate_in(alloc, base, files);
    }
    let count = trunk(files.as_slice());
    let (trunk, branches) = in_two(files, count)?;
    let evaluation = evaluate_files(alloc, base, trunk)?;
    let (below, modules) = finish(evaluation);
    let back = evaluate_branches(rt, alloc, below, branches, workers);
    let front = Evaluated {
        modules,
        scopes: Vec::new(alloc),
    };
    join_evaluated(Ok(front), back)
}

/// Files evaluated by so many workers, as `evaluate_in` does it. They are cut in two where a branch begins, so that no
/// file behind the cut inherits from one in front. Each part begins with its own copy of the base. Where the base is
/// so large that a copy takes longer than the files in front, one worker evaluates them all.
#[cycle(evaluating)]
fn evaluate_branches<R: Threads + Sync>(
    rt: &R,
    alloc: Global,
    base: Scope,
    files: Vec<Parsed>,
    workers: u32,
) -> Result<Evaluated, LoadError>
    requires order { IsStrictlySortedBy directory_cmp (directories_of files.items) }
    requires several { 1 < workers }
    ensures { Answers values_of result
        (evaluated_in (pairs_of base) [] (map placed_of files.items)) }
{
    let bytes = size(files.as_slice());
    let at = cut(files.as_slice(), bytes / 2);
    if at == 0 || !is_worth_a_copy(&base, files.as_slice(), at) {
        return evaluate_in(alloc, base, files);
    }
    let (front, back) = in_two(files, at)?;
    let some = workers_for(size(front.as_slice()), bytes, workers);
    let others = workers - some;
    let copy = base.copy(alloc)?;
    let evaluate_front = move || -> Result<Evaluated, LoadError>
        requires { IsSync R.row × IsStrictlySortedBy directory_cmp (directories_of front.items) }
        ensures { Answers values_of result
            (evaluated_in (pairs_of base) [] (map placed_of front.items)) }
    { evaluate_below(rt, alloc, base, front, some) };
    let evaluate_back = move || -> Result<Evaluated, LoadError>
        requires { IsSync R.row × IsStrictlySortedBy directory_cmp (directories_of back.items) }
        ensures { Answers values_of result
            (evaluated_in (pairs_of copy) [] (map placed_of back.items)) }
    { evaluate_below(rt, alloc, copy, back, others) };
    let (front, back) = join(rt, evaluate_front, evaluate_back);
    join_evaluated(front, back)
}

/// The seed by which names are found: it is made of the text of all files that set a name.
fn seed_of(files: &[Parsed]) -> Seed {
    let mut hasher = DefaultHasher::new();
    for file in files {
        hasher.write_u64(file.sum);
    }
    Seed { hasher }
}

/// How many definitions of files set names: there are at most so many names.
fn count_setting(files: &[Parsed]) -> usize {
    let mut count: usize = 0;
    for file in files {
        let setting = file
            .tree
            .defs
            .len()
            .saturating_sub(count_modules(&file.tree));
        count = count.saturating_add(setting);
    }
    count
}

/// The modules of all files, which stand in file order, evaluated by so many workers as `evaluate_all` does it.
pub fn evaluate_by<R: Threads + Sync>(
    rt: &R,
    alloc: Global,
    files: Vec<Parsed>,
    workers: u32,
) -> Result<Evaluated, LoadError>
    requires { IsStrictlySortedBy directory_cmp (directories_of files.items) }
    ensures { Answers values_of result (all_evaluated [] (map placed_of files.items)) }
{
    let seed = seed_of(files.as_slice());
    let none = Scope::seeded(alloc, seed, count_setting(files.as_slice()))?;
    evaluate_below(rt, alloc, none, files, workers)
}

//! The tree of a list.

ghost use Rattle.std.specs.Prelude.{◌≡◌, ◌≤◌, IfOk, IfSome, length};
ghost use Rattle.bp_faults.specs.declared.limits.TheConstants.{MOST_FILES, MOST_MODULES};
ghost use Rattle.bp_load.specs.Directories.{AreInFileOrder};
ghost use Rattle.bp_run.specs.Steps.{LoadsTree, ReadEnds};
ghost use Rattle.bp_run.specs.Tree.{ListFileMeans};

use crate::End;
use crate::load::load_listed;
use crate::read::read_list;
use crate::stopped::end_by_stop;
use bp_faults::{Path, Text};
use bp_ports::Store;
use bp_props::Module;
use std::alloc::Global;
use std::thread::Threads;

/// What the files of a list load as, and the paths of these files, by which faults are told.
#[derive(Debug, Drop)]
pub struct Tree {
    pub paths: Vec<Path>,
    pub typed: Vec<Module>,
}

// The tree of the files that a list names.
fn load_paths<R: Threads + Sync, S: Store>(
    rt: &R,
    alloc: Global,
    list: &Text,
    paths: Vec<Path>,
    workers: u32,
    store: &mut S,
) -> Result<Tree, End>
    requires few { length paths.items ≤ MOST_FILES }
    requires order { AreInFileOrder paths.items }
    requires listed { IfSome (S.files store.old) (λ files. ListFileMeans list.now files (Ok paths.items)) }
    ensures loads { LoadsTree list.now (S.files store.old) result }
    ensures few { IfOk result (λ tree. length tree.typed.items ≤ MOST_MODULES) }
    ensures cause { ReadEnds (S.read_faults store.old) (S.read_faults store.new) result }
    ensures files { S.files store.new ≡ S.files store.old }
    ensures writes { S.write_faults store.new ≡ S.write_faults store.old }
{
    match load_listed(rt, alloc, &paths, store, workers) {
        Ok(typed) => Ok(Tree { paths, typed }),
        Err(stop) => Err(end_by_stop(alloc, list.as_str(), &paths, &stop)),
    }
}

/// Reads a list and the files that it names, and loads them with so many workers.
pub fn load_tree<R: Threads + Sync, S: Store>(
    rt: &R,
    alloc: Global,
    list: &Text,
    workers: u32,
    store: &mut S,
) -> Result<Tree, End>
    ensures loads { LoadsTree list.now (S.files store.old) result }
    ensures few { IfOk result (λ tree. length tree.typed.items ≤ MOST_MODULES) }
    ensures cause { ReadEnds (S.read_faults store.old) (S.read_faults store.new) result }
    ensures files { S.files store.new ≡ S.files store.old }
    ensures writes { S.write_faults store.new ≡ S.write_faults store.old }
{
    match read_list(alloc, list, store) {
        Ok(paths) => load_paths(rt, alloc, list, paths, workers, store),
        Err(stop) => Err(end_by_stop(alloc, list.as_str(), &[], &stop)),
    }
}

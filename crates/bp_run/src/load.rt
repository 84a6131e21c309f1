ghost use Rattle.std.specs.Prelude.{◌≡◌, ◌≤◌, IfOk, IfSome, length, map};
ghost use Rattle.std.specs.List.{All};
ghost use Rattle.bp_faults.specs.declared.limits.TheConstants.{LARGEST_FILE, MOST_FILES, MOST_MODULES};
ghost use Rattle.bp_load.specs.Directories.{AreInFileOrder};
ghost use Rattle.bp_load.specs.Loaded.{LoadMeans};
ghost use Rattle.bp_load.specs.Trees.{sources_given};
ghost use Rattle.bp_run.specs.Steps.{GivesOrStops, GivesOrRunsOut, ReadCause};
ghost use Rattle.bp_run.specs.Tree.{ListedFilesLoad, CannotReadOf};

use crate::Stop;
use crate::leave::leave;
use crate::read::read_files;
use bp_faults::Path;
use bp_load::load_with_rest;
use bp_ports::Store;
use bp_props::Module;
use std::alloc::Global;
use std::thread::Threads;

/// The modules of some files, loaded by so many workers.
pub fn load_files<R: Threads + Sync>(
    rt: &R,
    alloc: Global,
    files: &[(Path, Vec<u8>)],
    workers: u32,
) -> Result<Vec<Module>, Stop>
    requires few { length files.now ≤ MOST_FILES }
    requires order { AreInFileOrder (map (λ f. f.0) (sources_given files.now)) }
    requires short { All (λ f. length f.1 ≤ LARGEST_FILE) (sources_given files.now) }
    ensures gives { GivesOrRunsOut (λ typed. typed.items) (LoadMeans (sources_given files.now)) result }
    ensures few { IfOk result (λ typed. length typed.items ≤ MOST_MODULES) }
{
    let loaded = load_with_rest(rt, alloc, files, workers)?;
    leave(loaded.rest);
    Ok(loaded.modules)
}

/// The modules of the files that a list names, loaded by so many workers. Their bytes are dropped.
pub fn load_listed<R: Threads + Sync, S: Store>(
    rt: &R,
    alloc: Global,
    paths: &[Path],
    store: &mut S,
    workers: u32,
) -> Result<Vec<Module>, Stop>
    requires few { length paths.now ≤ MOST_FILES }
    requires order { AreInFileOrder paths.now }
    ensures gives { IfSome (S.files store.old) (λ files. GivesOrStops (λ typed. typed.items)
        (ListedFilesLoad files paths.now) (CannotReadOf files paths.now) result) }
    ensures few { IfOk result (λ typed. length typed.items ≤ MOST_MODULES) }
    ensures cause { ReadCause (S.read_faults store.old) (S.read_faults store.new) result }
    ensures files { S.files store.new ≡ S.files store.old }
    ensures writes { S.write_faults store.new ≡ S.write_faults store.old }
{
    let files = read_files(alloc, paths, store)?;
    load_files(rt, alloc, &files, workers)
}

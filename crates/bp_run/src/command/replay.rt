//! `replay`: the file for Ninja, along the order file.

ghost use Rattle.std.specs.Prelude.{◌≡◌, ◌≤◌, ◌+◌, ◌∷◌, [], ◌++◌, IfOk, IfSome, length, map};
ghost use Rattle.std.specs.List.{All};
ghost use Rattle.bp_faults.specs.Answers.{Tells};
ghost use Rattle.bp_faults.specs.declared.limits.TheConstants.{LARGEST_FILE, MOST_FILES, MOST_MODULES};
ghost use Rattle.bp_load.specs.Directories.{AreInFileOrder};
ghost use Rattle.bp_load.specs.Trees.{sources_given};
ghost use Rattle.bp_pipeline.specs.Replays.{OrderMeans};
ghost use Rattle.command_words.specs.Words.{IsSoundReplay};
ghost use Rattle.mutator_rules.specs.Configs.{TargetsDiffer};
ghost use Rattle.bp_run.specs.Commands.{replay_command};
ghost use Rattle.bp_run.specs.Job.{SourcesReplay, ListedFilesReplay};
ghost use Rattle.bp_run.specs.Steps.{Exactly, GivesOrRunsOut, GivesOrStops, Prepares, ReadCause, ReadEnds, Stopped};
ghost use Rattle.bp_run.specs.Tree.{CannotReadAlong, ListFileMeans, sources_and_order};

use crate::leave::leave;
use crate::load::load_files;
use crate::puts::puts_to_file_or_end;
use crate::read::{read_file, read_files, read_list};
use crate::stopped::{end_by_names, end_by_stop, names_of};
use crate::targets::config_of;
use crate::{End, Put, Stop};
use bp_faults::limits::LARGEST_ORDER_FILE;
use bp_faults::{OutOfMemory, Path, Refusal, Seq, Text};
use bp_pipeline::replay_with_rest;
use bp_ports::Store;
use bp_props::Module;
use command_words::Replay;
use mutator_rules::Config;
use std::alloc::Global;
use std::thread::Threads;

/// What a replay reads: the Android.bp files, and the order file behind them.
#[derive(Debug, Drop)]
pub struct Inputs {
    pub files: Vec<(Path, Vec<u8>)>,
    pub order: Vec<u8>,
}

// The number of the order file: the next one behind the files that the list names.
fn order_number(paths: &[Path]) -> u32
    requires { length paths.now ≤ MOST_FILES }
    ensures { result ≡ length paths.now + 1 }
{
    paths.len() as u32 + 1
}

// Reads the files that the list names, and then the order file, which has the next number.
fn read_inputs<S: Store>(
    alloc: Global,
    words: &Replay,
    paths: &[Path],
    number: u32,
    store: &mut S,
) -> Result<Inputs, Stop>
    requires few { length paths.now ≤ MOST_FILES }
    requires number { number ≡ length paths.now + 1 }
    ensures gives { IfSome (S.files store.old) (λ files. GivesOrStops
        (λ inputs. (sources_given inputs.files.items, inputs.order.items))
        (Exactly (sources_and_order files paths.now words.now.order))
        (CannotReadAlong files paths.now words.now.order) result) }
    ensures paths { IfOk result (λ inputs. map (λ f. f.0) (sources_given inputs.files.items) ≡ paths.now) }
    ensures short { IfOk result (λ inputs. All (λ f. length f.1 ≤ LARGEST_FILE) (sources_given inputs.files.items)) }
    ensures bound { IfOk result (λ inputs. length inputs.order.items ≤ LARGEST_ORDER_FILE) }
    ensures cause { ReadCause (S.read_faults store.old) (S.read_faults store.new) result }
    ensures files { S.files store.new ≡ S.files store.old }
    ensures writes { S.write_faults store.new ≡ S.write_faults store.old }
{
    let files = read_files(alloc, paths, store)?;
    let order = read_file(alloc, store, &words.order, number, LARGEST_ORDER_FILE)?;
    Ok(Inputs { files, order })
}

// The text of the file for Ninja, along the bytes of an order file. What is left is left to the end of the process.
fn replay_order<R: Threads + Sync>(
    rt: &R,
    alloc: Global,
    typed: &[Module],
    c: &Config,
    order: &[u8],
    number: u32,
) -> Result<Seq<u8>, Refusal>
    requires few { length typed.now ≤ MOST_MODULES }
    requires targets { TargetsDiffer c.now }
    requires order { length order.now ≤ LARGEST_ORDER_FILE }
    ensures { Tells (λ text. text) (OrderMeans typed.now c.now order.now number) result }
{
    let replayed = replay_with_rest(rt, alloc, typed, c, order, number)?;
    leave(replayed.rest);
    Ok(replayed.ninja)
}

// The text of the file for Ninja, along the order file of a number.
fn replay_inputs<R: Threads + Sync>(
    rt: &R,
    alloc: Global,
    words: &Replay,
    inputs: &Inputs,
    number: u32,
) -> Result<Seq<u8>, Stop>
    requires few { length inputs.now.files.items ≤ MOST_FILES }
    requires order { AreInFileOrder (map (λ f. f.0) (sources_given inputs.now.files.items)) }
    requires short { All (λ f. length f.1 ≤ LARGEST_FILE) (sources_given inputs.now.files.items) }
    requires bound { length inputs.now.order.items ≤ LARGEST_ORDER_FILE }
    requires sound { IsSoundReplay words.now }
    ensures { GivesOrRunsOut (λ text. text)
        (SourcesReplay words.now number (sources_given inputs.now.files.items, inputs.now.order.items)) result }
{
    let typed = load_files(rt, alloc, &inputs.files, 1)?;
    let config = config_of(alloc, &words.targets)?;
    let text = replay_order(rt, alloc, &typed, &config, &inputs.order, number)?;
    leave(typed);
    Ok(text)
}

// What the files of a list are replayed to.
fn replay_listed<R: Threads + Sync, S: Store>(
    rt: &R,
    alloc: Global,
    words: &Replay,
    paths: &[Path],
    store: &mut S,
) -> Result<Seq<u8>, Stop>
    requires few { length paths.now ≤ MOST_FILES }
    requires order { AreInFileOrder paths.now }
    requires sound { IsSoundReplay words.now }
    ensures gives { IfSome (S.files store.old) (λ files. GivesOrStops (λ text. text)
        (ListedFilesReplay words.now files paths.now) (CannotReadAlong files paths.now words.now.order) result) }
    ensures cause { ReadCause (S.read_faults store.old) (S.read_faults store.new) result }
    ensures files { S.files store.new ≡ S.files store.old }
    ensures writes { S.write_faults store.new ≡ S.write_faults store.old }
{
    let number = order_number(paths);
    let inputs = read_inputs(alloc, words, paths, number, store)?;
    replay_inputs(rt, alloc, words, &inputs, number)
}

// The names of the files of a replay by their numbers: the list, the paths that it names, and the order.
fn replay_names(alloc: Global, words: &Replay, paths: &[Path]) -> Result<Vec<Text>, OutOfMemory>
    ensures { IfOk result (λ texts. texts.items ≡ words.now.list ∷ (paths.now ++ words.now.order ∷ [])) }
{
    let mut texts = names_of(alloc, words.list.as_str(), paths)?;
    texts.push(words.order.copy(alloc)?)?;
    Ok(texts)
}

// The line that reports why a replay makes nothing.
fn end_with_order(alloc: Global, words: &Replay, paths: &[Path], stop: &Stop) -> End
    ensures { Stopped (words.now.list ∷ (paths.now ++ words.now.order ∷ [])) stop.now result }
{
    match replay_names(alloc, words, paths) {
        Ok(names) => end_by_names(alloc, &names, stop),
        Err(_) => End::OutOfMemory,
    }
}

// What `replay` comes to over the files that its list names.
fn prepare_listed<R: Threads + Sync, S: Store>(
    rt: &R,
    alloc: Global,
    words: &Replay,
    paths: &[Path],
    store: &mut S,
) -> Result<Vec<Put>, End>
    requires few { length paths.now ≤ MOST_FILES }
    requires order { AreInFileOrder paths.now }
    requires sound { IsSoundReplay words.now }
    requires listed { IfSome (S.files store.old) (λ files. ListFileMeans words.now.list files (Ok paths.now)) }
    ensures prepares { Prepares (replay_command words.now) (S.files store.old) result }
    ensures cause { ReadEnds (S.read_faults store.old) (S.read_faults store.new) result }
    ensures files { S.files store.new ≡ S.files store.old }
    ensures writes { S.write_faults store.new ≡ S.write_faults store.old }
{
    match replay_listed(rt, alloc, words, paths, store) {
        Ok(text) => puts_to_file_or_end(alloc, &words.out, text),
        Err(stop) => Err(end_with_order(alloc, words, paths, &stop)),
    }
}

/// What `replay` comes to: the text for OUT, or how it ends.
pub fn prepare<R: Threads + Sync, S: Store>(
    rt: &R,
    alloc: Global,
    words: &Replay,
    store: &mut S,
) -> Result<Vec<Put>, End>
    requires { IsSoundReplay words.now }
    ensures prepares { Prepares (replay_command words.now) (S.files store.old) result }
    ensures cause { ReadEnds (S.read_faults store.old) (S.read_faults store.new) result }
    ensures files { S.files store.new ≡ S.files store.old }
    ensures writes { S.write_faults store.new ≡ S.write_faults store.old }
{
    match read_list(alloc, &words.list, store) {
        Ok(paths) => prepare_listed(rt, alloc, words, &paths, store),
        Err(stop) => Err(end_by_stop(alloc, words.list.as_str(), &[], &stop)),
    }
}

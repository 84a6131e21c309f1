//! `synth`: the summary of a tree that is made in memory. It touches no store.

ghost use Rattle.std.specs.Prelude.{◌≡◌, ◌≤◌, ◌∷◌, Some, None, IfOk, length, map};
ghost use Rattle.std.specs.FinMap.{empty};
ghost use Rattle.std.specs.List.{All};
ghost use Rattle.bp_faults.specs.declared.limits.TheConstants.{LARGEST_FILE, MOST_FILES, MOST_MODULES};
ghost use Rattle.bp_load.specs.Directories.{AreInFileOrder};
ghost use Rattle.bp_load.specs.Trees.{sources_given};
ghost use Rattle.command_words.specs.Words.{IsSoundSynth};
ghost use Rattle.synthetic_tree.specs.Blocks.{AreTree};
ghost use Rattle.synthetic_tree.specs.Summary.{summary_text};
ghost use Rattle.bp_run.specs.Commands.{synth_command, ToOutput};
ghost use Rattle.bp_run.specs.End.{ArePrints};
ghost use Rattle.bp_run.specs.Job.{SourcesSummarize, SummaryGives};
ghost use Rattle.bp_run.specs.Lines.{synth_name};
ghost use Rattle.bp_run.specs.Steps.{MakesOrStops, MakesPuts, OnReadEnd, Prepares, Stopped, Summarizes};

use crate::leave::leave;
use crate::load::load_files;
use crate::puts::puts_to_output;
use crate::stopped::end_by_stop;
use crate::targets::synth_config;
use crate::{End, Put, Stop};
use bp_faults::{OutOfMemory, Path, Refusal};
use bp_pipeline::{Generated, generate_with_rest};
use bp_ports::Gate;
use bp_props::Module;
use command_words::Synth;
use std::alloc::Global;
use std::thread::Threads;
use synthetic_tree::{Summary, summary_text, synth_tree};

// What was generated, in numbers.
fn summary_of(words: &Synth, made: &Generated) -> Summary
    requires { length made.now.sizes ≡ 11 }
    ensures { Summarizes words.now made.now result }
{
    let sizes = made.sizes.as_slice();
    Summary {
        modules: words.modules,
        linked: sizes[4].nodes,
        edges: sizes[6].edges,
        nodes: sizes[10].nodes,
        statements: made.statements,
        bytes: made.ninja.as_slice().len(),
    }
}

// The lines of a summary go to the output.
fn summary_puts(alloc: Global, summary: Summary) -> Result<Vec<Put>, OutOfMemory>
    ensures { IfOk result (λ puts. ToOutput None (summary_text summary) puts.items) }
{
    puts_to_output(alloc, summary_text(alloc, summary)?.into_bytes())
}

// What modules are made into: the summary of what was generated of them.
fn summarize<R: Threads + Sync, G: Gate + Sync>(
    rt: &R,
    alloc: Global,
    words: &Synth,
    typed: &[Module],
    gate: &G,
) -> Result<Vec<Put>, Refusal>
    requires few { length typed.now ≤ MOST_MODULES }
    requires sound { IsSoundSynth words.now }
    ensures { MakesPuts (SummaryGives words.now typed.now) (ToOutput None) result }
{
    let config = synth_config(alloc)?;
    let whole = generate_with_rest(rt, alloc, typed, &config, words.workers, gate)?;
    leave(whole.rest);
    let made = whole.generated;
    Ok(summary_puts(alloc, summary_of(words, &made))?)
}

// What files in memory are made into.
fn summarize_files<R: Threads + Sync, G: Gate + Sync>(
    rt: &R,
    alloc: Global,
    words: &Synth,
    files: &[(Path, Vec<u8>)],
    gate: &G,
) -> Result<Vec<Put>, Stop>
    requires few { length files.now ≤ MOST_FILES }
    requires order { AreInFileOrder (map (λ f. f.0) (sources_given files.now)) }
    requires short { All (λ f. length f.1 ≤ LARGEST_FILE) (sources_given files.now) }
    requires sound { IsSoundSynth words.now }
    ensures { MakesOrStops (SourcesSummarize words.now (sources_given files.now)) (ToOutput None) result }
{
    let typed = load_files(rt, alloc, files, words.workers)?;
    let made = summarize(rt, alloc, words, &typed, gate);
    leave(typed);
    Ok(made?)
}

// The paths of some files.
fn paths_of(alloc: Global, files: &[(Path, Vec<u8>)]) -> Result<Vec<Path>, OutOfMemory>
    ensures { IfOk result (λ paths. paths.items ≡ map (λ f. f.0) (sources_given files.now)) }
{
    let mut paths = Vec::new(alloc);
    for (path, _) in files {
        paths.push(path.copy(alloc)?)?;
    }
    Ok(paths)
}

// The line that reports why nothing is made of a synthetic tree.
fn end_over_tree(alloc: Global, files: &[(Path, Vec<u8>)], stop: &Stop) -> End
    ensures { Stopped (synth_name ∷ map (λ f. f.0) (sources_given files.now)) stop.now result }
{
    match paths_of(alloc, files) {
        Ok(paths) => end_by_stop(alloc, "synth", &paths, stop),
        Err(_) => End::OutOfMemory,
    }
}

// What a tree in memory is made into, or how the command ends.
fn prepare_tree<R: Threads + Sync, G: Gate + Sync>(
    rt: &R,
    alloc: Global,
    words: &Synth,
    files: &[(Path, Vec<u8>)],
    gate: &G,
) -> Result<Vec<Put>, End>
    requires few { length files.now ≤ MOST_FILES }
    requires order { AreInFileOrder (map (λ f. f.0) (sources_given files.now)) }
    requires short { All (λ f. length f.1 ≤ LARGEST_FILE) (sources_given files.now) }
    requires sound { IsSoundSynth words.now }
    requires tree { AreTree words.now.seed words.now.modules (sources_given files.now) }
    ensures prepares { Prepares (synth_command words.now) (Some empty) result }
    ensures prints { IfOk result (λ puts. ArePrints puts.items) }
{
    match summarize_files(rt, alloc, words, files, gate) {
        Ok(puts) => Ok(puts),
        Err(stop) => Err(end_over_tree(alloc, files, &stop)),
    }
}

/// What `synth` comes to: the summary for the output, or how it ends.
pub fn prepare<R: Threads + Sync, G: Gate + Sync>(
    rt: &R,
    alloc: Global,
    words: &Synth,
    gate: &G,
) -> Result<Vec<Put>, End>
    requires { IsSoundSynth words.now }
    ensures prepares { Prepares (synth_command words.now) (Some empty) result }
    ensures prints { IfOk result (λ puts. ArePrints puts.items) }
{
    match synth_tree(alloc, words.seed, words.modules) {
        Ok(files) => prepare_tree(rt, alloc, words, &files, gate),
        Err(_) => Err(End::OutOfMemory),
    }
}

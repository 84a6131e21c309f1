//! `graph`: the text of the graph after the first mutators.

ghost use Rattle.std.specs.Prelude.{◌≡◌, ◌≤◌, Ok, None, Option, length};
ghost use Rattle.bp_faults.specs.declared.limits.TheConstants.{MOST_MODULES};
ghost use Rattle.bp_ports.specs.Files.{Files};
ghost use Rattle.command_words.specs.Words.{IsSoundGraph};
ghost use Rattle.bp_run.specs.Commands.{over_list, ToOutput};
ghost use Rattle.bp_run.specs.Job.{GraphGives};
ghost use Rattle.bp_run.specs.Steps.{LoadsTree, MakesPuts, Prepares, ReadEnds, OnReadEnd};

use crate::leave::leave;
use crate::puts::puts_to_output;
use crate::stopped::end_by_refusal;
use crate::targets::config_of;
use crate::tree::load_tree;
use crate::{End, Put, Tree};
use bp_faults::Refusal;
use bp_pipeline::{shared_graph_after, show_graph};
use bp_ports::{Gate, Store};
use bp_props::Module;
use command_words::Graph;
use std::alloc::Global;
use std::thread::Threads;

// What modules are made into: the text of their graph.
fn show_puts<R: Threads + Sync, G: Gate + Sync>(
    rt: &R,
    alloc: Global,
    words: &Graph,
    typed: &[Module],
    gate: &G,
) -> Result<Vec<Put>, Refusal>
    requires few { length typed.now ≤ MOST_MODULES }
    requires sound { IsSoundGraph words.now }
    ensures { MakesPuts (GraphGives words.now typed.now) (ToOutput None) result }
{
    let config = config_of(alloc, &words.targets)?;
    let graph = shared_graph_after(rt, alloc, typed, &config, words.after, words.workers, gate)?;
    let text = show_graph(alloc, typed, &graph)?;
    leave(graph);
    Ok(puts_to_output(alloc, text)?)
}

// What a tree is made into, or how the command ends.
fn prepare_tree<R: Threads + Sync, G: Gate + Sync>(
    rt: &R,
    alloc: Global,
    words: &Graph,
    tree: &Tree,
    gate: &G,
) -> Result<Vec<Put>, End>
    requires few { length tree.now.typed.items ≤ MOST_MODULES }
    requires sound { IsSoundGraph words.now }
    ensures prepares { (told : Option Files) → LoadsTree words.now.list told (Ok tree.now)
        → Prepares (over_list words.now.list (GraphGives words.now) ToOutput) told result }
    ensures silent { OnReadEnd result ⊥ }
{
    match show_puts(rt, alloc, words, &tree.typed, gate) {
        Ok(puts) => Ok(puts),
        Err(refusal) => Err(end_by_refusal(alloc, words.list.as_str(), &tree.paths, refusal)),
    }
}

/// What `graph` comes to: the text for the output, or how it ends.
pub fn prepare<R: Threads + Sync, S: Store, G: Gate + Sync>(
    rt: &R,
    alloc: Global,
    words: &Graph,
    store: &mut S,
    gate: &G,
) -> Result<Vec<Put>, End>
    requires { IsSoundGraph words.now }
    ensures prepares { Prepares (over_list words.now.list (GraphGives words.now) ToOutput) (S.files store.old) result }
    ensures cause { ReadEnds (S.read_faults store.old) (S.read_faults store.new) result }
    ensures files { S.files store.new ≡ S.files store.old }
    ensures writes { S.write_faults store.new ≡ S.write_faults store.old }
{
    match load_tree(rt, alloc, &words.list, words.workers, store) {
        Ok(tree) => {
            let prepared = prepare_tree(rt, alloc, words, &tree, gate);
            leave(tree);
            prepared
        }
        Err(end) => Err(end),
    }
}

//! `build`: the file for Ninja, and a journal where one is asked for.

ghost use Rattle.std.specs.Prelude.{◌≡◌, ◌≤◌, ◌∷◌, [], ◌++◌, IfOk, Ok, Option, length};
ghost use Rattle.bp_faults.specs.declared.limits.TheConstants.{MOST_MODULES};
ghost use Rattle.bp_ports.specs.Files.{Files};
ghost use Rattle.command_words.specs.Words.{IsSoundBuild};
ghost use Rattle.order_text.specs.Texts.{journal_text};
ghost use Rattle.bp_run.specs.Commands.{build_command, BuildGoes};
ghost use Rattle.bp_run.specs.Job.{config_of, AreJournalLines, BuildGives};
ghost use Rattle.bp_run.specs.Steps.{LoadsTree, MakesPuts, Prepares, ReadEnds, OnReadEnd};
ghost use Rattle.bp_run.specs.declared.put.Put.TheVariants.{Write};

use crate::leave::leave;
use crate::puts::puts_to_file;
use crate::stopped::end_by_refusal;
use crate::targets::config_of;
use crate::tree::load_tree;
use crate::{End, Put, Tree};
use bp_faults::{NodeId, OutOfMemory, Refusal, Seq, Text};
use bp_pipeline::{Generated, generate_with_rest};
use bp_ports::{Gate, Store};
use bp_props::Module;
use command_words::Build;
use order_text::journal_text;
use std::alloc::Global;
use std::thread::Threads;

// The journal of some visits goes to the file of a path, behind what is there.
fn with_journal(
    alloc: Global,
    path: &Text,
    visits: &Seq<(u32, NodeId)>,
    mut puts: Vec<Put>,
) -> Result<Vec<Put>, OutOfMemory>
    ensures { IfOk result (λ more. more.items ≡ puts.items ++ Write path.now (journal_text visits.now) ∷ []) }
{
    let lines = Seq::new(journal_text(alloc, visits.as_slice())?);
    puts.push(Put::Write(path.copy(alloc)?, lines))?;
    Ok(puts)
}

// The text goes to OUT, and the journal behind it, where one is asked for.
fn build_puts(alloc: Global, words: &Build, made: Generated) -> Result<Vec<Put>, OutOfMemory>
    ensures { IfOk result (λ puts.
        BuildGoes words.now (λ lines. lines ≡ journal_text made.journal) made.ninja puts.items) }
{
    let puts = puts_to_file(alloc, &words.out, made.ninja)?;
    match &words.journal {
        Some(path) => with_journal(alloc, path, &made.journal, puts),
        None => Ok(puts),
    }
}

// What modules are made into: the text of the file for Ninja, and the journal beside it.
fn generate_puts<R: Threads + Sync, G: Gate + Sync>(
    rt: &R,
    alloc: Global,
    words: &Build,
    typed: &[Module],
    gate: &G,
) -> Result<Vec<Put>, Refusal>
    requires few { length typed.now ≤ MOST_MODULES }
    requires sound { IsSoundBuild words.now }
    ensures { MakesPuts (BuildGives words.now typed.now)
        (BuildGoes words.now (AreJournalLines typed.now (config_of words.now.targets))) result }
{
    let config = config_of(alloc, &words.targets)?;
    let whole = generate_with_rest(rt, alloc, typed, &config, words.workers, gate)?;
    leave(whole.rest);
    Ok(build_puts(alloc, words, whole.generated)?)
}

// What a tree is made into, or how the command ends.
fn prepare_tree<R: Threads + Sync, G: Gate + Sync>(
    rt: &R,
    alloc: Global,
    words: &Build,
    tree: &Tree,
    gate: &G,
) -> Result<Vec<Put>, End>
    requires few { length tree.now.typed.items ≤ MOST_MODULES }
    requires sound { IsSoundBuild words.now }
    ensures prepares { (told : Option Files) → LoadsTree words.now.list told (Ok tree.now)
        → Prepares (build_command words.now) told result }
    ensures silent { OnReadEnd result ⊥ }
{
    match generate_puts(rt, alloc, words, &tree.typed, gate) {
        Ok(puts) => Ok(puts),
        Err(refusal) => Err(end_by_refusal(alloc, words.list.as_str(), &tree.paths, refusal)),
    }
}

/// What `build` comes to: the text and the journal with their places, or how it ends.
pub fn prepare<R: Threads + Sync, S: Store, G: Gate + Sync>(
    rt: &R,
    alloc: Global,
    words: &Build,
    store: &mut S,
    gate: &G,
) -> Result<Vec<Put>, End>
    requires { IsSoundBuild words.now }
    ensures prepares { Prepares (build_command words.now) (S.files store.old) result }
    ensures cause { ReadEnds (S.read_faults store.old) (S.read_faults store.new) result }
    ensures files { S.files store.new ≡ S.files store.old }
    ensures writes { S.write_faults store.new ≡ S.write_faults store.old }
{
    match load_tree(rt, alloc, &words.list, words.workers, store) {
        Ok(tree) => {
            let prepared = prepare_tree(rt, alloc, words, &tree, gate);
            leave(tree);
            prepared
        }
        Err(end) => Err(end),
    }
}

//! A command is a row: what it comes to before anything is put. Each has a file of its own.

ghost use Rattle.std.specs.Prelude.{◌≡◌, [], IfOk};
ghost use Rattle.command_words.specs.Words.{IsSoundConfiguration};
ghost use Rattle.bp_run.specs.Commands.{description_of};
ghost use Rattle.bp_run.specs.Description.{seen_by};
ghost use Rattle.bp_run.specs.End.{Ended, ArePrints};
ghost use Rattle.bp_run.specs.Run.{Spares};
ghost use Rattle.bp_run.specs.Steps.{Prepares, ReadEnds};
ghost use Rattle.bp_run.specs.World.{world, IsSpared};
ghost use Rattle.command_words.specs.Words.{configuration_of};

mod build;
mod edit;
mod format;
mod graph;
mod replay;
mod synth;
mod text;

use crate::deliver::deliver;
use crate::{End, Put};
use bp_faults::Text;
use bp_ports::{Gate, Sink, Store};
use command_words::{Configuration, configure};
use std::alloc::Global;
use std::thread::Threads;

// What a command comes to.
fn prepare<R: Threads + Sync, S: Store, G: Gate + Sync>(
    rt: &R,
    alloc: Global,
    command: &Configuration,
    store: &mut S,
    gate: &G,
) -> Result<Vec<Put>, End>
    requires { IsSoundConfiguration command.now }
    ensures prepares { Prepares (description_of command.now)
        (seen_by (description_of command.now).paths (S.files store.old)) result }
    ensures cause { ReadEnds (S.read_faults store.old) (S.read_faults store.new) result }
    ensures files { S.files store.new ≡ S.files store.old }
    ensures writes { S.write_faults store.new ≡ S.write_faults store.old }
    ensures spares { (description_of command.now).paths ≡ [] → S.read_faults store.new ≡ S.read_faults store.old }
    ensures prints { (description_of command.now).paths ≡ [] → IfOk result (λ puts. ArePrints puts.items) }
{
    match command {
        Configuration::Build(words) => build::prepare(rt, alloc, words, store, gate),
        Configuration::Replay(words) => replay::prepare(rt, alloc, words, store),
        Configuration::Graph(words) => graph::prepare(rt, alloc, words, store, gate),
        Configuration::Synth(words) => synth::prepare(rt, alloc, words, gate),
        Configuration::Format(words) => format::prepare(alloc, words, store),
        Configuration::Edit(words) => edit::prepare(alloc, words, store),
    }
}

// Prepares what a command comes to, and puts it where it goes.
fn run_command<R: Threads + Sync, S: Store, O: Sink, G: Gate + Sync>(
    rt: &R,
    alloc: Global,
    command: &Configuration,
    store: &mut S,
    out: &mut O,
    gate: &G,
) -> End
    requires { IsSoundConfiguration command.now }
    ensures ended { Ended description_of (Some command.now)
        (world S.Store O.Sink store.old out.old) (world S.Store O.Sink store.new out.new) result }
    ensures spares { Spares description_of (Some command.now)
        (world S.Store O.Sink store.old out.old) (world S.Store O.Sink store.new out.new) }
{
    match prepare(rt, alloc, command, store, gate) {
        Ok(puts) => deliver(alloc, &puts, store, out),
        Err(end) => end,
    }
}

/// Does what the words say, but for reporting how it ended.
pub fn run_words<R: Threads + Sync, S: Store, O: Sink, G: Gate + Sync>(
    rt: &R,
    alloc: Global,
    words: &[Text],
    store: &mut S,
    out: &mut O,
    gate: &G,
) -> End
    ensures ended { Ended description_of (configuration_of words.now)
        (world S.Store O.Sink store.old out.old) (world S.Store O.Sink store.new out.new) result }
    ensures spares { Spares description_of (configuration_of words.now)
        (world S.Store O.Sink store.old out.old) (world S.Store O.Sink store.new out.new) }
{
    match configure(alloc, words) {
        Ok(Some(command)) => run_command(rt, alloc, &command, store, out, gate),
        Ok(None) => End::Usage,
        Err(_) => End::OutOfMemory,
    }
}

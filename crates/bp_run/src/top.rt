ghost use Rattle.command_words.specs.Words.{configuration_of};
ghost use Rattle.bp_run.specs.Commands.{description_of};
ghost use Rattle.bp_run.specs.Run.{RunMeans};
ghost use Rattle.bp_run.specs.World.{world, stream};

use crate::command::run_words;
use crate::end::{report, status};
use crate::laws::one_outcome;
use bp_faults::Text;
use bp_ports::{Gate, Sink, Store};
use std::alloc::Global;
use std::thread::Threads;

/// All that the program does, for the words after its name: the exit status.
///
/// 0 is done, 1 a fault of the input, 2 faulty words, 3 a file that can't be read, 4 one that can't
/// be written, and 5 that memory ran out. Each but 0 puts one line on `diag`.
pub fn run<R: Threads + Sync, S: Store, O: Sink, D: Sink, G: Gate + Sync>(
    rt: &R,
    alloc: Global,
    words: &[Text],
    store: &mut S,
    out: &mut O,
    diag: &mut D,
    gate: &G,
) -> u8
    ensures { RunMeans description_of (configuration_of words.now)
        (world S.Store O.Sink store.old out.old) (world S.Store O.Sink store.new out.new)
        (stream D.Sink diag.old) (stream D.Sink diag.new) result }
{
    // A law: so a command that came to a text comes to no fault, and the other way round.
    one_outcome();
    let end = run_words(rt, alloc, words, store, out, gate);
    report(&end, diag);
    status(&end)
}

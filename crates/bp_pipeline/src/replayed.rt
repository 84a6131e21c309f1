ghost use Rattle.std.specs.Prelude.{◌≤◌, ◌<◌, suc, drop, length};
ghost use Rattle.bp_faults.specs.Answers.{Answers, Tells};
ghost use Rattle.bp_faults.specs.declared.limits.TheConstants.{LARGEST_ORDER_FILE, MOST_MODULES};
ghost use Rattle.mutator_rules.specs.Configs.{TargetsDiffer};
ghost use Rattle.bp_pipeline.specs.Replays.{OrderMeans, ReplayMeans, end_of};

use crate::GenError;
use crate::actions::run_all;
use crate::rest::PassRest;
use crate::text::text_of;
use crate::workshop::Workshop;
use bp_faults::{Fault, FaultKind, Place, Refusal, Seq};
use bp_ports::OpenGate;
use bp_props::Module;
use build_actions::build_file;
use mutator_rules::Config;
use order_text::order_lines;
use pass_ways::{OrderLine, OrderLines, Way};
use std::alloc::Global;
use std::thread::Threads;

/// Refuses a line behind those of all passes.
fn check_end(alloc: Global, lines: &OrderLines<'_>, made: usize) -> Result<(), Refusal>
    requires { length lines.now.lines.now < 4294967295 }
    ensures { Answers (λ done. done) result (end_of lines.now.file (suc made) (drop made lines.now.lines.now)) }
{
    match lines.lines.get(made) {
        Some(line) => {
            let at = Place {
                file: lines.file,
                line: made as u32 + 1,
                col: 1,
            };
            let text = line.text.copy(alloc)?;
            Err(Refusal::Bad(Fault::on(alloc, FaultKind::NotReady, at, text)))
        }
        None => Ok(()),
    }
}

/// What is replayed, and what is left.
#[derive(Drop)]
pub struct Replayed<'m> {
    /// The text of the file for Ninja.
    pub ninja: Seq<u8>,
    /// What nobody needs any more.
    pub rest: PassRest<'m>,
}

/// As `replay_lines`, with what is left.
fn replay_lines_with_rest<'m, R: Threads + Sync>(
    rt: &R,
    alloc: Global,
    mods: &'m [Module],
    c: &'m Config,
    lines: &[OrderLine],
    file: u32,
) -> Result<Replayed<'m>, GenError>
    requires few { length mods.now ≤ MOST_MODULES }
    requires targets { TargetsDiffer c.now }
    requires lines { length lines.now < 4294967295 }
    ensures { Tells (λ replayed. replayed.ninja) (ReplayMeans mods.now c.now lines.now file) result }
{
    let along = OrderLines { lines, file };
    let shop: Workshop<'_, '_, OpenGate> = Workshop {
        mods,
        config: c,
        way: Way::Lines(along),
    };
    let ran = run_all(rt, alloc, &shop)?;
    check_end(alloc, &along, ran.journal.len())?;
    let ninja = build_file(alloc, ran.made)?;
    let text = text_of(rt, alloc, &ninja, 1)?;
    Ok(Replayed {
        ninja: Seq::new(text),
        rest: PassRest {
            records: ran.records,
            file: ninja,
        },
    })
}

/// The text of the file for Ninja, where each pass visits the nodes in the order in which the lines of an order file
/// name them.
///
/// Refusals are those of `generate`; 35 at the first line that isn't legal, before the fault of its pass; 36 behind the
/// last line where a pass hasn't ended; 35 at a line behind all passes, before 34.
pub fn replay_lines<R: Threads + Sync>(
    rt: &R,
    alloc: Global,
    mods: &[Module],
    c: &Config,
    lines: &[OrderLine],
    file: u32,
) -> Result<Seq<u8>, GenError>
    requires few { length mods.now ≤ MOST_MODULES }
    requires targets { TargetsDiffer c.now }
    requires lines { length lines.now < 4294967295 }
    ensures { Tells (λ text. text) (ReplayMeans mods.now c.now lines.now file) result }
{
    match replay_lines_with_rest(rt, alloc, mods, c, lines, file) {
        Ok(replayed) => Ok(replayed.ninja),
        Err(refusal) => Err(refusal),
    }
}

/// As `replay`, which frees what is left: here it is handed out beside the text.
pub fn replay_with_rest<'m, R: Threads + Sync>(
    rt: &R,
    alloc: Global,
    mods: &'m [Module],
    c: &'m Config,
    order: &[u8],
    file: u32,
) -> Result<Replayed<'m>, GenError>
    requires few { length mods.now ≤ MOST_MODULES }
    requires targets { TargetsDiffer c.now }
    requires order { length order.now ≤ LARGEST_ORDER_FILE }
    ensures { Tells (λ replayed. replayed.ninja) (OrderMeans mods.now c.now order.now file) result }
{
    let lines = order_lines(alloc, order)?;
    replay_lines_with_rest(rt, alloc, mods, c, lines.as_slice(), file)
}

/// The same by the bytes of an order file.
pub fn replay<R: Threads + Sync>(
    rt: &R,
    alloc: Global,
    mods: &[Module],
    c: &Config,
    order: &[u8],
    file: u32,
) -> Result<Seq<u8>, GenError>
    requires few { length mods.now ≤ MOST_MODULES }
    requires targets { TargetsDiffer c.now }
    requires order { length order.now ≤ LARGEST_ORDER_FILE }
    ensures { Tells (λ text. text) (OrderMeans mods.now c.now order.now file) result }
{
    match replay_with_rest(rt, alloc, mods, c, order, file) {
        Ok(replayed) => Ok(replayed.ninja),
        Err(refusal) => Err(refusal),
    }
}

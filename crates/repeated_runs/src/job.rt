ghost use Rattle.std.specs.Prelude.{◌≤◌, IfOk, length};
ghost use Rattle.bp_faults.specs.declared.limits.TheConstants.{MOST_MODULES, MOST_WORKERS};
ghost use Rattle.mutator_rules.specs.Configs.{TargetsDiffer};

use crate::size::Size;
use crate::tree::tree_of;
use bp_faults::limits::{LARGEST_ORDER_FILE, MOST_MODULES};
use bp_faults::{OutOfMemory, Refusal, Seq, Target};
use bp_load::load;
use bp_pipeline::{Generated, generate, graph_after, replay};
use bp_ports::OpenGate;
use bp_props::Module;
use mutator_rules::Config;
use order_text::journal_text;
use std::alloc::Global;
use std::thread::Threads;

fn config_of(alloc: Global) -> Result<Config, OutOfMemory>
    ensures { IfOk result TargetsDiffer }
{
    Ok(Config {
        targets: Seq::new(vec![in alloc; Target::AndroidArm64, Target::AndroidArm]?),
    })
}

fn generated<R: Threads + Sync>(
    rt: &R,
    alloc: Global,
    mods: &[Module],
    c: &Config,
    workers: u32,
) -> Result<Generated, Refusal>
    requires few { length mods.now ≤ MOST_MODULES }
    requires targets { TargetsDiffer c.now }
    requires workers { (1 ≤ workers) × (workers ≤ MOST_WORKERS) }
{
    generate(rt, alloc, mods, c, workers, &OpenGate)
}

// The size of the text that is replayed along the journal of a run.
fn replayed<R: Threads + Sync>(
    rt: &R,
    alloc: Global,
    mods: &[Module],
    c: &Config,
    workers: u32,
) -> Result<usize, Refusal>
    requires few { length mods.now ≤ MOST_MODULES }
    requires targets { TargetsDiffer c.now }
    requires workers { (1 ≤ workers) × (workers ≤ MOST_WORKERS) }
{
    let made = generated(rt, alloc, mods, c, workers)?;
    let order = journal_text(alloc, made.journal.as_slice())?;
    if order.len() as u64 > LARGEST_ORDER_FILE {
        return Err(Refusal::OutOfMemory);
    }
    let text = replay(rt, alloc, mods, c, order.as_slice(), 0)?;
    Ok(text.as_slice().len())
}

/// Loads the tree and does what the word says: how many bytes or nodes were made. All of it is freed. A word that says
/// nothing makes nothing.
pub fn run<R: Threads + Sync>(
    rt: &R,
    alloc: Global,
    word: &str,
    size: &Size,
) -> Result<usize, Refusal> {
    let files = tree_of(alloc, size.modules)?;
    let modules = load(rt, alloc, files.as_slice(), size.workers)?;
    let mods = modules.as_slice();
    if mods.len() > MOST_MODULES {
        return Err(Refusal::OutOfMemory);
    }
    let config = config_of(alloc)?;
    match word {
        "generate" => Ok(
            generated(rt, alloc, mods, &config, size.workers)?
                .ninja
                .as_slice()
                .len(),
        ),
        "graph" => {
            let graph = graph_after(rt, alloc, mods, &config, 11, size.workers, &OpenGate)?;
            Ok(graph.nodes.as_slice().len())
        }
        "replay" => replayed(rt, alloc, mods, &config, size.workers),
        _ => Ok(0),
    }
}

ghost use Rattle.std.specs.Prelude.{◌≤◌, length, All, IfOk, IsUtf8};
ghost use Rattle.bp_faults.specs.Answers.{Tells};
ghost use Rattle.bp_faults.specs.declared.limits.TheConstants.{MOST_MODULES, MOST_WORKERS};
ghost use Rattle.mutator_rules.specs.Configs.{TargetsDiffer};
ghost use Rattle.order_text.specs.Lines.{IsVisit};
ghost use Rattle.bp_pipeline.specs.Generated.{TextMeans, IsStatementCount, AreSizes};
ghost use Rattle.bp_pipeline.specs.Journals.{IsLegalJournal};

use crate::GenError;
use crate::actions::run_all;
use crate::rest::PassRest;
use crate::sizes::Sizes;
use crate::text::text_of;
use crate::workshop::Workshop;
use bp_faults::{NodeId, Seq};
use bp_ports::Gate;
use bp_props::Module;
use build_actions::build_file;
use mutator_rules::Config;
use pass_ways::Way;
use std::alloc::Global;
use std::thread::Threads;

/// What is generated of modules.
#[derive(Debug, Drop)]
pub struct Generated {
    /// The text of the file for Ninja.
    pub ninja: Seq<u8>,
    /// The visits of all passes, by pass and then in the order in which they ended.
    pub journal: Seq<(u32, NodeId)>,
    /// How many statements the file has, the one of all outputs among them.
    pub statements: u32,
    /// The size of the graph after each mutator.
    pub sizes: Seq<Sizes>,
}

/// What is generated of modules, and what is left.
#[derive(Drop)]
pub struct GeneratedWithRest<'m> {
    pub generated: Generated,
    /// What nobody needs any more.
    pub rest: PassRest<'m>,
}

/// As `generate`, which frees what is left: here it is handed out beside what is generated.
pub fn generate_with_rest<'m, R: Threads + Sync, G: Gate + Sync>(
    rt: &R,
    alloc: Global,
    mods: &'m [Module],
    c: &'m Config,
    workers: u32,
    gate: &G,
) -> Result<GeneratedWithRest<'m>, GenError>
    requires few { length mods.now ≤ MOST_MODULES }
    requires targets { TargetsDiffer c.now }
    requires workers { (1 ≤ workers) × (workers ≤ MOST_WORKERS) }
    ensures text { Tells (λ made. made.generated.ninja) (TextMeans mods.now c.now) result }
    ensures utf8 { IfOk result (λ made. IsUtf8 made.generated.ninja) }
    ensures journal { IfOk result (λ made. IsLegalJournal mods.now c.now made.generated.journal) }
    ensures visits { IfOk result (λ made. All IsVisit made.generated.journal) }
    ensures statements { IfOk result (λ made. IsStatementCount mods.now c.now made.generated.statements) }
    ensures sizes { IfOk result (λ made. AreSizes mods.now c.now made.generated.sizes) }
{
    let shop = Workshop {
        mods,
        config: c,
        way: Way::Workers { workers, gate },
    };
    let ran = run_all(rt, alloc, &shop)?;
    let file = build_file(alloc, ran.made)?;
    let text = text_of(rt, alloc, &file, workers)?;
    let statements = file.statements.as_slice().len() as u32;
    Ok(GeneratedWithRest {
        generated: Generated {
            ninja: Seq::new(text),
            journal: Seq::new(ran.journal),
            statements,
            sizes: Seq::new(ran.sizes),
        },
        rest: PassRest {
            records: ran.records,
            file,
        },
    })
}

/// All passes over the modules, and the text of the file for Ninja, or the first fault.
///
/// Refusals are those of `graph_after`, then those of the actions (25 and 28), then 34. Everything but the journal is
/// the same for any number of workers.
pub fn generate<R: Threads + Sync, G: Gate + Sync>(
    rt: &R,
    alloc: Global,
    mods: &[Module],
    c: &Config,
    workers: u32,
    gate: &G,
) -> Result<Generated, GenError>
    requires few { length mods.now ≤ MOST_MODULES }
    requires targets { TargetsDiffer c.now }
    requires workers { (1 ≤ workers) × (workers ≤ MOST_WORKERS) }
    ensures text { Tells (λ made. made.ninja) (TextMeans mods.now c.now) result }
    ensures utf8 { IfOk result (λ made. IsUtf8 made.ninja) }
    ensures journal { IfOk result (λ made. IsLegalJournal mods.now c.now made.journal) }
    ensures visits { IfOk result (λ made. All IsVisit made.journal) }
    ensures statements { IfOk result (λ made. IsStatementCount mods.now c.now made.statements) }
    ensures sizes { IfOk result (λ made. AreSizes mods.now c.now made.sizes) }
{
    match generate_with_rest(rt, alloc, mods, c, workers, gate) {
        Ok(made) => Ok(made.generated),
        Err(refusal) => Err(refusal),
    }
}

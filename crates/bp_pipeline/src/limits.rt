ghost use Rattle.std.specs.Prelude.{◌≡◌, IfOk, Err, codes};
ghost use Rattle.bp_faults.specs.Answers.{Tells};
ghost use Rattle.bp_faults.specs.Faults.{fault_on};
ghost use Rattle.bp_faults.specs.declared.kind.FaultKind.TheVariants.{TooMany};
ghost use Rattle.bp_pipeline.specs.Inside.{RefusalMeans};
ghost use Rattle.bp_pipeline.specs.Limits.{place_of_module};

use bp_faults::{Fault, FaultKind, ModuleId, OutOfMemory, Place, Refusal, Text};
use bp_props::Module;
use mutator_rules::KindError;
use std::alloc::Global;
use variant_graphs::StepError;

fn place_of_module(mods: &[Module], number: ModuleId) -> Place
    ensures { result ≡ place_of_module mods.now number }
{
    match mods.get(number.0 as usize) {
        Some(item) => item.at,
        None => Place::start(0),
    }
}

fn too_many(alloc: Global, at: Place, limit: &str) -> Result<Fault, OutOfMemory>
    ensures { IfOk result (λ fault. fault ≡ fault_on TooMany at limit.now) }
{
    Ok(Fault::on(alloc, FaultKind::TooMany, at, Text::from_str(alloc, limit)?))
}

/// Why a pass gives no graph, as the refusal of the whole.
pub fn refusal_of(alloc: Global, mods: &[Module], error: StepError) -> Refusal
    ensures { RefusalMeans mods.now error result }
{
    let fault = match error {
        StepError::Refused(fault) => Ok(fault),
        StepError::Kind(KindError::At(_, fault)) => Ok(fault),
        StepError::Kind(KindError::Nodes(number)) => {
            too_many(alloc, place_of_module(mods, number), "variants")
        }
        StepError::Kind(KindError::Edges(at)) => too_many(alloc, at, "edges"),
        StepError::Kind(KindError::OutOfMemory) => Err(OutOfMemory),
    };
    match fault {
        Ok(fault) => Refusal::Bad(fault),
        Err(_) => Refusal::OutOfMemory,
    }
}

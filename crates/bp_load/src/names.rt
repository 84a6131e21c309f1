ghost use Rattle.std.specs.Prelude.{◌≡◌, [], IfOk, OnOk};
ghost use Rattle.bp_faults.specs.Answers.{Answers};
ghost use Rattle.bp_faults.specs.Faults.{fault_on};
ghost use Rattle.bp_load.specs.Loaded.{name_place as place_of_name, name_check, names_tested};
ghost use Rattle.bp_load.specs.Numbered.{numbered_names};
ghost use Rattle.bp_names.specs.Meaning.{knows, Learns};

use crate::LoadError;
use bp_faults::limits::MOST_MODULES;
use bp_faults::{Fault, FaultKind, OutOfMemory, Place, Text};
use bp_names::laws::sets_grow_with_lists;
use bp_props::Module;
use name_index::NameIndex;
use std::alloc::Global;

fn name_place(typed: &Module) -> Place
    ensures { result ≡ place_of_name typed.now.at typed.now.props.name }
{
    match &typed.props.name {
        Some(name) => name.at,
        None => typed.at,
    }
}

fn fault_of(alloc: Global, kind: FaultKind, at: Place, subject: &str) -> Result<Fault, OutOfMemory>
    ensures { IfOk result (λ fault. fault ≡ fault_on kind at subject.now) }
{
    Ok(Fault::on(alloc, kind, at, Text::from_str(alloc, subject)?))
}

/// Counts a module behind so many others, and compares its name with those that are known.
#[tactic(auto, using(crate::proofs::Knowing::knows_numbered, crate::proofs::Knowing::learns_numbered))]
fn test_name<'a>(
    alloc: Global,
    known: &mut NameIndex<'a>,
    count: usize,
    typed: &'a Module,
) -> Result<(), LoadError>
    ensures tested { Answers (λ done. done) result
        (name_check count (knows (numbered_names known.old) typed.now.name) typed.now) }
    ensures learned { OnOk result (Learns (numbered_names known.old) typed.now.name (numbered_names known.new)) }
{
    if count >= MOST_MODULES {
        let fault = fault_of(alloc, FaultKind::TooMany, typed.at, "modules")?;
        return Err(LoadError::Bad(fault));
    }
    if known.learn(typed.name.as_str(), count as u32)?.is_some() {
        let name = typed.name.as_str();
        let fault = fault_of(alloc, FaultKind::DuplicateName, name_place(typed), name)?;
        return Err(LoadError::Bad(fault));
    }
    Ok(())
}

/// Counts the modules, and compares each name with those before it.
pub fn test_names(alloc: Global, modules: &[Module]) -> Result<(), LoadError>
    ensures { Answers (λ done. done) result (names_tested [] modules.now) }
{
    sets_grow_with_lists();
    let mut known = NameIndex::new(alloc);
    let mut count = 0;
    'modules: for module in modules {
        test_name(alloc, &mut known, count, module)?;
        count += 1;
    }
    Ok(())
}

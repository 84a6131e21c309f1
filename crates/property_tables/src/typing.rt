ghost use Rattle.std.specs.Prelude.{◌≡◌, IfOk};
ghost use Rattle.bp_faults.specs.Faults.{fault_on as fault_on_as};
ghost use Rattle.bp_faults.specs.Answers.{Answers};
ghost use Rattle.bp_values.specs.Meaning.{raw_of};
ghost use Rattle.property_tables.specs.Meaning.{name_in};
ghost use Rattle.property_tables.specs.Meaning.{module_typed, typed_module as typed_as};

use crate::LoadError;
use crate::module_entries::put_entries;
use crate::module_name::is_module_name;
use crate::module_type::{is_dropped, kind_of};
use bp_faults::{Fault, FaultKind, OutOfMemory, Path, Place, Text};
use bp_props::{Given, Module, ModuleKind, Props};
use bp_values::RawModule;
use std::alloc::Global;

fn fault_on(alloc: Global, kind: FaultKind, at: Place, subject: &Text) -> Result<Fault, OutOfMemory>
    ensures { IfOk result (λ fault. fault ≡ fault_on_as kind at subject.now) }
{
    Ok(Fault::on(alloc, kind, at, subject.copy(alloc)?))
}

/// The name of a module, which must be given and may not be every text.
fn name_of(alloc: Global, raw: &RawModule, name: &Option<Given<Text>>) -> Result<Text, LoadError>
    ensures { Answers (λ name. name) result (name_in (raw_of raw.now) name.now) }
{
    match name {
        Some(name) if is_module_name(name.value.as_str()) => Ok(name.value.copy(alloc)?),
        Some(name) => {
            let fault = fault_on(alloc, FaultKind::BadName, name.at, &name.value)?;
            Err(LoadError::Bad(fault))
        }
        None => {
            let fault = fault_on(alloc, FaultKind::MissingName, raw.at, &raw.kind)?;
            Err(LoadError::Bad(fault))
        }
    }
}

fn typed_as_kind(
    alloc: Global,
    raw: &RawModule,
    dir: &Path,
    kind: ModuleKind,
) -> Result<Option<Module>, LoadError>
    ensures { Answers (λ typed. typed) result (module_typed (raw_of raw.now) dir.now kind) }
{
    // The record is large, so it is filled where it stands.
    let mut module = Module {
        name: Text::new(String::new(alloc)),
        kind,
        dir: dir.copy(alloc)?,
        at: raw.at,
        props: Props::empty(alloc),
    };
    put_entries(alloc, dir, kind, raw.entries.as_slice(), &mut module.props)?;
    module.name = name_of(alloc, raw, &module.props.name)?;
    Ok(Some(module))
}

/// A module with its record, or nothing for a `package` or a `license`.
///
/// Where there is neither, the first fault is the answer: the type's, *unknown module type*; then those of
/// the entries in their order, groups depth first and lists item by item, *unknown property*, *wrong
/// type*, *bad value* and *bad path*; then the name's, *module without a name* or *bad module name*.
/// So a bad property stands before a missing name. `dir` is the directory of the module's file.
pub fn typed(alloc: Global, raw: &RawModule, dir: &Path) -> Result<Option<Module>, LoadError>
    ensures { Answers (λ typed. typed) result (typed_as (raw_of raw.now) dir.now) }
{
    if is_dropped(raw.kind.as_str()) {
        return Ok(None);
    }
    match kind_of(raw.kind.as_str()) {
        Some(kind) => typed_as_kind(alloc, raw, dir, kind),
        None => {
            let fault = fault_on(alloc, FaultKind::UnknownType, raw.at, &raw.kind)?;
            Err(LoadError::Bad(fault))
        }
    }
}

ghost use Rattle.std.specs.Prelude.{◌≡◌, ◌++◌, IfOk};
ghost use Rattle.bp_faults.specs.Faults.{fault_on};
ghost use Rattle.bp_faults.specs.declared.kind.FaultKind.TheVariants.{BadPath};
ghost use Rattle.bp_faults.specs.Answers.{Answers};
ghost use Rattle.bp_faults.specs.Phases.{each_in_turn};
ghost use Rattle.property_values.specs.Fits.{flag_in, dir_in, path_in, source_in};

use crate::LoadError;
use crate::entry_values::entry_fault;
use crate::path_item::{dir_below, has_component, has_control, is_refused, path_below};
use bp_faults::{Fault, FaultKind, Item, OutOfMemory, Path, Seq, Text, copy_all};
use bp_props::Source;
use std::alloc::Global;

fn bad_path(alloc: Global, item: &Item) -> Result<Fault, OutOfMemory>
    ensures { IfOk result (λ fault. fault ≡ fault_on BadPath item.now.at item.now.text) }
{
    let subject = item.text.copy(alloc)?;
    Ok(Fault::on(alloc, FaultKind::BadPath, item.at, subject))
}

fn flag(alloc: Global, prefix: &str, name: &Text, item: &Item) -> Result<Text, LoadError>
    ensures { Answers (λ flag. flag) result (flag_in (prefix.now ++ name.now) item.now) }
{
    if has_control(item.text.as_str()) {
        let fault = entry_fault(alloc, FaultKind::BadValue, item.at, prefix, name)?;
        return Err(LoadError::Bad(fault));
    }
    Ok(item.text.copy(alloc)?)
}

/// The flags of a list.
pub(crate) fn flags(
    alloc: Global,
    prefix: &str,
    name: &Text,
    items: &[Item],
) -> Result<Seq<Text>, LoadError>
    ensures { Answers (λ flags. flags) result (each_in_turn (flag_in (prefix.now ++ name.now)) items.now) }
{
    let mut flags = Vec::with_capacity(alloc, items.len())?;
    for item in items {
        flags.push(flag(alloc, prefix, name, item)?)?;
    }
    Ok(Seq::new(flags))
}

/// The names of a list.
pub(crate) fn names(alloc: Global, items: &[Item]) -> Result<Seq<Item>, OutOfMemory>
    ensures { IfOk result (λ names. names ≡ items.now) }
{
    Ok(Seq::new(copy_all(alloc, items)?))
}

fn dir(alloc: Global, base: &Path, item: &Item) -> Result<Path, LoadError>
    ensures { Answers (λ dir. dir) result (dir_in base.now item.now) }
{
    if is_refused(item.text.as_str()) {
        return Err(LoadError::Bad(bad_path(alloc, item)?));
    }
    Ok(dir_below(alloc, base, item.text.as_str())?)
}

/// The directories of a list, below the base directory.
pub(crate) fn dirs(alloc: Global, base: &Path, items: &[Item]) -> Result<Seq<Path>, LoadError>
    ensures { Answers (λ dirs. dirs) result (each_in_turn (dir_in base.now) items.now) }
{
    let mut dirs = Vec::with_capacity(alloc, items.len())?;
    for item in items {
        dirs.push(dir(alloc, base, item)?)?;
    }
    Ok(Seq::new(dirs))
}

fn source_path(alloc: Global, dir: &Path, item: &Item) -> Result<Source, LoadError>
    ensures { Answers (λ source. source) result (path_in dir.now item.now) }
{
    let text = item.text.as_str();
    if is_refused(text) || !has_component(text) {
        return Err(LoadError::Bad(bad_path(alloc, item)?));
    }
    Ok(Source {
        named: false,
        item: Item {
            text: path_below(alloc, dir, text)?,
            at: item.at,
        },
    })
}

fn source(alloc: Global, dir: &Path, item: &Item) -> Result<Source, LoadError>
    ensures { Answers (λ source. source) result (source_in dir.now item.now) }
{
    match item.text.as_str().strip_prefix(':') {
        Some(name) => Ok(Source {
            named: true,
            item: Item {
                text: Text::from_str(alloc, name)?,
                at: item.at,
            },
        }),
        None => source_path(alloc, dir, item),
    }
}

/// The sources of a list, in a module of this directory.
pub(crate) fn sources(alloc: Global, dir: &Path, items: &[Item]) -> Result<Seq<Source>, LoadError>
    ensures { Answers (λ sources. sources) result (each_in_turn (source_in dir.now) items.now) }
{
    let mut sources = Vec::with_capacity(alloc, items.len())?;
    for item in items {
        sources.push(source(alloc, dir, item)?)?;
    }
    Ok(Seq::new(sources))
}

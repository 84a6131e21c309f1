ghost use Rattle.std.specs.Prelude.{◌≡◌, map, IfOk};
ghost use Rattle.fault_view.specs.Known.{type_names, table_names};

use bp_faults::{OutOfMemory, Text};
use property_tables::{PropTable, arch, group, multilib, of_modules, sanitize, target};
use std::alloc::Global;

// What may stand in a group, by the group's name: the names of `arch`, `multilib` and `target` are of groups, in which
// every other group's properties stand.
fn table(name: &str) -> PropTable
    ensures { map (λ p. p.name) result ≡ table_names name.now }
{
    match name {
        "" => of_modules(),
        "sanitize" => sanitize(),
        "arch" => arch(),
        "multilib" => multilib(),
        "target" => target(),
        _ => group(),
    }
}

// The same names, each in memory of its own.
fn texts(alloc: Global, names: &[&str]) -> Result<Vec<Text>, OutOfMemory>
    ensures { IfOk result (λ texts. texts.items ≡ map (λ name. name.now) names.now) }
{
    let mut texts = Vec::new(alloc);
    for name in names {
        texts.push(Text::from_str(alloc, name)?)?;
    }
    Ok(texts)
}

/// The types of modules, behind which those stand that are dropped.
pub fn type_names(alloc: Global) -> Result<Vec<Text>, OutOfMemory>
    ensures { IfOk result (λ names. names.items ≡ type_names) }
{
    let mut names = texts(alloc, property_tables::type_names())?;
    names.push(Text::from_str(alloc, "package")?)?;
    names.push(Text::from_str(alloc, "license")?)?;
    Ok(names)
}

/// The properties that may stand in a group, and those of modules where the group is empty.
pub fn property_names(alloc: Global, group: &str) -> Result<Vec<Text>, OutOfMemory>
    ensures { IfOk result (λ names. names.items ≡ table_names group.now) }
{
    table(group).names(alloc)
}

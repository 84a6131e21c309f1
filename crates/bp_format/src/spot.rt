ghost use Rattle.std.specs.Prelude.{◌≡◌, map, codes};
ghost use Rattle.std.specs.Option.{option_map};
ghost use Rattle.bp_faults.specs.Answers.{Answers};
ghost use Rattle.bp_parser.specs.Trees.{tree_of, map_of, entry_of, entries_then, no_entry, definition_of, first_place};
ghost use Rattle.bp_format.specs.Spots.{lookup, string_place, value_spot, named_spot, spot};

use bp_faults::{Fault, FaultKind, Place, Refusal, Text};
use bp_parser::{Def, EntryExpr, Expr};
use std::alloc::Global;

/// Where a list is set.
#[derive(Clone, Copy)]
pub enum Spot {
    /// In place of the list that begins there.
    Instead(Place),
    /// Behind the string that stands there.
    Behind(Place),
}

// The place of an expression's first token.
fn first_place(expr: &Expr) -> Place
    ensures { result ≡ first_place (tree_of expr.now) }
{
    match expr {
        Expr::Bool(at, _) => *at,
        Expr::Int(at, _) => *at,
        Expr::Str(at, _) => *at,
        Expr::Name(at, _) => *at,
        Expr::List(at, _) => *at,
        Expr::Map(literal) => literal.at,
        Expr::Sum(first, _) => first_place(first),
    }
}

// The value of an entry.
fn lookup<'a>(entries: &'a [EntryExpr], name: &str) -> Option<&'a Expr>
    ensures { option_map (λ x. tree_of x.now) result
        ≡ lookup name.now (entries_then (map entry_of entries.now) no_entry) }
{
    'entries: for entry in entries {
        if entry.name.as_str() == name {
            return Some(&entry.value);
        }
    }
    None
}

// The place of a value that is one string literal, equal to the text.
fn string_place(value: Option<&Expr>, text: &Text) -> Option<Place>
    ensures { result ≡ string_place text.now (option_map (λ x. tree_of x.now) value.entry) }
{
    match value {
        Some(Expr::Str(at, string)) => {
            if string.as_str() == text.as_str() {
                Some(*at)
            } else {
                None
            }
        }
        _ => None,
    }
}

fn value_spot(
    alloc: Global,
    value: Option<&Expr>,
    name: Place,
    property: &Text,
) -> Result<Spot, Refusal>
    ensures { Answers (λ s. s) result (value_spot property.now name (option_map (λ x. tree_of x.now) value.entry)) }
{
    match value {
        None => Ok(Spot::Behind(name)),
        Some(Expr::List(at, _)) => Ok(Spot::Instead(*at)),
        Some(other) => Err(Refusal::Bad(Fault::on(
            alloc,
            FaultKind::NotList,
            first_place(other),
            property.copy(alloc)?,
        ))),
    }
}

// That of a definition, if it is the module with this name.
fn named_spot(
    alloc: Global,
    def: &Def,
    wanted: &Text,
    property: &Text,
) -> Result<Option<Spot>, Refusal>
    ensures { Answers (λ s. s) result (named_spot wanted.now property.now (definition_of def.now)) }
{
    match def {
        Def::Module { body, .. } => {
            let entries = body.entries.as_slice();
            match string_place(lookup(entries, "name"), wanted) {
                Some(name) => {
                    let value = lookup(entries, property.as_str());
                    Ok(Some(value_spot(alloc, value, name, property)?))
                }
                None => Ok(None),
            }
        }
        _ => Ok(None),
    }
}

/// Where the list of a property is set, in the first module with this name.
pub fn find_spot(
    alloc: Global,
    file: u32,
    wanted: &Text,
    property: &Text,
    defs: &[Def],
) -> Result<Spot, Refusal>
    ensures { Answers (λ s. s) result (spot file wanted.now property.now (map definition_of defs.now)) }
{
    'defs: for def in defs {
        if let Some(found) = named_spot(alloc, def, wanted, property)? {
            return Ok(found);
        }
    }
    let start = Place::start(file);
    Err(Refusal::Bad(Fault::on(alloc, FaultKind::NoModule, start, wanted.copy(alloc)?)))
}

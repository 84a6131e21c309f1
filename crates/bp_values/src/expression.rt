ghost use Rattle.std.specs.Prelude.{◌≡◌, map, codes, Ok, IfOk};
ghost use Rattle.bp_parser.specs.Trees.{tree_of, map_of, entry_of, term_of, trees_then, terms_then};
ghost use Rattle.bp_parser.specs.Trees.{entries_then, first_place as place_of};
ghost use Rattle.bp_parser.specs.Trees.{no_tree, no_term, no_entry};
ghost use Rattle.bp_values.specs.Values.{meaning, map_entry_of, Items, body};
ghost use Rattle.bp_faults.specs.Answers.{Answers, then_do};
ghost use Rattle.bp_values.specs.Sums.{list_within, sum as sum_of};
ghost use Rattle.bp_values.specs.Scopes.{pairs_of, value_in};
ghost use Rattle.bp_values.specs.Inside.{sum_so_far, HasIndices};
ghost use Rattle.bp_values.specs.Expressions.{val, val_items, val_terms, val_entries, val_map, item_of};
ghost use Rattle.bp_values.specs.Expressions.{known_value as known_as};

use crate::depth::within_depth;
use crate::map_sum::MapSum;
use crate::sums::{add, add_copy, too_many};
use crate::value::{copy_value, make_entry, map_value};
use crate::{Entry, EvalError, Scope, Value};
use bp_faults::limits::MOST_LIST_ITEMS;
use bp_faults::{Fault, FaultKind, Item, Place, Text};
use bp_parser::{EntryExpr, Expr, MapExpr};
use std::alloc::Global;

/// The place of an expression's first token.
fn first_place(expr: &Expr) -> Place
    ensures { result ≡ place_of (tree_of expr.now) }
{
    match expr {
        Expr::Bool(at, _) => *at,
        Expr::Int(at, _) => *at,
        Expr::Str(at, _) => *at,
        Expr::Name(at, _) => *at,
        Expr::List(at, _) => *at,
        Expr::Map(literal) => literal.at,
        Expr::Sum(first, _) => first_place(first),
    }
}

/// The value of a name, which the scope keeps.
fn named<'a>(
    alloc: Global,
    scope: &'a Scope,
    at: Place,
    name: &Text,
) -> Result<&'a Value, EvalError>
    ensures { Answers (λ v. meaning v.now) result (known_as at name.now (value_in (pairs_of scope.now) name.now)) }
{
    match scope.get(name) {
        Some(value) => Ok(value),
        None => Err(EvalError::Bad(Fault::on(
            alloc,
            FaultKind::UnknownVariable,
            at,
            name.copy(alloc)?,
        ))),
    }
}

/// A copy of the value of a name.
fn read(alloc: Global, scope: &Scope, at: Place, name: &Text) -> Result<Value, EvalError>
    ensures { Answers meaning result (known_as at name.now (value_in (pairs_of scope.now) name.now)) }
{
    let value = named(alloc, scope, at, name)?;
    Ok(copy_value(alloc, value)?)
}

/// The item that a value is, where it is a string.
fn item(alloc: Global, at: Place, value: Value) -> Result<Item, EvalError>
    ensures { Answers (λ i. i) result (item_of at (meaning value)) }
{
    match value {
        Value::Str(text) => Ok(Item { text, at }),
        _ => Err(EvalError::Bad(Fault::on(
            alloc,
            FaultKind::WrongType,
            at,
            Text::from_str(alloc, "list item")?,
        ))),
    }
}

/// The value of an expression.
#[cycle(expressions)]
pub fn value_of(alloc: Global, scope: &Scope, expr: &Expr) -> Result<Value, EvalError>
    ensures { Answers meaning result (val (pairs_of scope.now) (tree_of expr.now)) }
{
    match expr {
        Expr::Bool(_, b) => Ok(Value::Bool(*b)),
        Expr::Int(_, n) => Ok(Value::Int(*n)),
        Expr::Str(_, text) => Ok(Value::Str(text.copy(alloc)?)),
        Expr::Name(at, name) => read(alloc, scope, *at, name),
        Expr::List(at, items) => {
            let items = items_of(alloc, scope, items.as_slice())?;
            list_value(alloc, *at, items)
        }
        Expr::Map(literal) => {
            let entries = entries_of(alloc, scope, literal)?;
            Ok(map_value(entries))
        }
        Expr::Sum(first, terms) => {
            let first = value_of(alloc, scope, first)?;
            if terms.len() == 1 {
                return add_terms(alloc, scope, terms.as_slice(), first);
            }
            match first {
                Value::Map(entries) => add_maps(alloc, scope, terms.as_slice(), entries),
                first => add_terms(alloc, scope, terms.as_slice(), first),
            }
        }
    }
}

/// A list value, within the limit.
fn list_value(alloc: Global, at: Place, items: Vec<Item>) -> Result<Value, EvalError>
    ensures { Answers meaning result
        (then_do (list_within MOST_LIST_ITEMS (codes "list") at items.items) (λ l. Ok (Items l))) }
{
    if items.len() > MOST_LIST_ITEMS {
        return Err(EvalError::Bad(too_many(alloc, at, "list")?));
    }
    Ok(Value::Strs(items))
}

/// The items in turn.
#[cycle(expressions)]
fn items_of(alloc: Global, scope: &Scope, items: &[Expr]) -> Result<Vec<Item>, EvalError>
    ensures { Answers (λ v. v.items) result
        (val_items (pairs_of scope.now) (trees_then (map tree_of items.now) no_tree)) }
{
    let mut list = Vec::with_capacity(alloc, items.len())?;
    'items: for expr in items {
        list.push(item_value(alloc, scope, expr)?)?;
    }
    Ok(list)
}

#[cycle(expressions)]
fn item_value(alloc: Global, scope: &Scope, expr: &Expr) -> Result<Item, EvalError>
    ensures { Answers (λ i. i) result
        (then_do (val (pairs_of scope.now) (tree_of expr.now)) (item_of (place_of (tree_of expr.now)))) }
{
    let value = value_of(alloc, scope, expr)?;
    item(alloc, first_place(expr), value)
}

/// The sum of the first and the terms, in turn.
#[cycle(expressions)]
fn add_terms(
    alloc: Global,
    scope: &Scope,
    terms: &[(Place, Expr)],
    first: Value,
) -> Result<Value, EvalError>
    ensures { Answers meaning result
        (val_terms (pairs_of scope.now) (meaning first) (terms_then (map term_of terms.now) no_term)) }
{
    let mut total = first;
    'terms: for (at, term) in terms {
        total = add_term(alloc, scope, term, *at, total)?;
    }
    Ok(total)
}

#[cycle(expressions)]
fn add_term(
    alloc: Global,
    scope: &Scope,
    term: &Expr,
    at: Place,
    total: Value,
) -> Result<Value, EvalError>
    ensures { Answers meaning result
        (then_do (val (pairs_of scope.now) (tree_of term.now)) (sum_of at (meaning total))) }
{
    if let Expr::Name(place, name) = term {
        let other = named(alloc, scope, *place, name)?;
        return add_copy(alloc, total, other, at);
    }
    let other = value_of(alloc, scope, term)?;
    add(alloc, total, other, at)
}

/// The sum of a map and the terms, in turn, with the indices of the sum's names kept beside it.
#[cycle(expressions)]
fn add_maps(
    alloc: Global,
    scope: &Scope,
    terms: &[(Place, Expr)],
    first: Vec<Entry>,
) -> Result<Value, EvalError>
    ensures { Answers meaning result (val_terms (pairs_of scope.now)
        (body (map map_entry_of first.items)) (terms_then (map term_of terms.now) no_term)) }
{
    let mut total = MapSum::of(first);
    'terms: for (at, term) in terms {
        total = add_map(alloc, scope, term, *at, total)?;
    }
    Ok(total.into_value())
}

#[cycle(expressions)]
fn add_map(
    alloc: Global,
    scope: &Scope,
    term: &Expr,
    at: Place,
    total: MapSum,
) -> Result<MapSum, EvalError>
    requires { HasIndices total }
    ensures total { Answers sum_so_far result
        (then_do (val (pairs_of scope.now) (tree_of term.now)) (sum_of at (sum_so_far total))) }
    ensures indices { IfOk result HasIndices }
{
    let other = value_of(alloc, scope, term)?;
    total.add(alloc, other, at)
}

/// The entries of a map literal.
#[cycle(expressions)]
pub fn entries_of(alloc: Global, scope: &Scope, literal: &MapExpr) -> Result<Vec<Entry>, EvalError>
    ensures { Answers (λ es. map map_entry_of es.items) result
        (val_map (pairs_of scope.now) (map_of literal.now).at (map_of literal.now).entries) }
{
    let entries = all_entries(alloc, scope, literal.entries.as_slice())?;
    within_depth(alloc, literal.at, entries)
}

#[cycle(expressions)]
fn all_entries(alloc: Global, scope: &Scope, entries: &[EntryExpr]) -> Result<Vec<Entry>, EvalError>
    ensures { Answers (λ es. map map_entry_of es.items) result
        (val_entries (pairs_of scope.now) (entries_then (map entry_of entries.now) no_entry)) }
{
    let mut list = Vec::with_capacity(alloc, entries.len())?;
    'entries: for entry in entries {
        let value = value_of(alloc, scope, &entry.value)?;
        list.push(make_entry(entry.name.copy(alloc)?, entry.at, value))?;
    }
    Ok(list)
}

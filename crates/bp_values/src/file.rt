ghost use Rattle.std.specs.Prelude.{◌≡◌, ◌≤◌, map, IfOk, OnOk, None};
ghost use Rattle.bp_parser.specs.Trees.{tree_of, map_of, definition_of};
ghost use Rattle.bp_faults.specs.Answers.{Answers, Leaves};
ghost use Rattle.bp_values.specs.Scopes.{pairs_of, outer_pairs, value_in, count_of, HasOuter};
ghost use Rattle.bp_values.specs.Inside.{known_of, inherited_by, IsConsistent};
ghost use Rattle.bp_values.specs.Meaning.{raw_of, after_assignment, after_extension, after_module, after_definition};
ghost use Rattle.bp_values.specs.Meaning.{after_definitions, file_evaluation};

use crate::expression::{entries_of, value_of};
use crate::kept_indices::KeptIndices;
use crate::map_sum::add_to;
use crate::marks::{Marks, mark, mark_entries};
use crate::{Entry, EvalError, Scope, Value};
use bp_faults::{Fault, FaultKind, Place, Text};
use bp_parser::{Def, Expr, FileTree, MapExpr};
use std::alloc::Global;

/// A module as it is written, with its values.
#[derive(Drop)]
pub struct RawModule {
    pub kind: Text,
    pub at: Place,
    pub entries: Vec<Entry>,
}

/// What a file has after some definitions: its scope, what it has noted of the names to which it
/// referred, and its modules.
#[derive(Drop)]
pub struct State<'a> {
    scope: Scope,
    // How many names of the scope are inherited. They are the first.
    inherited: usize,
    // Those of the names of maps that were extended, so that the next `+=` looks its keys up.
    kept: KeptIndices<'a>,
    used: Marks<'a>,
    modules: Vec<RawModule>,
}

/// `name = value`
fn assign<'a>(
    alloc: Global,
    state: &mut State<'a>,
    name: &Text,
    at: Place,
    value: &'a Expr,
) -> Result<(), EvalError>
    requires consistent { IsConsistent state.old }
    ensures known { Leaves known_of state.new result (after_assignment (known_of state.old) name.now at
        (tree_of value.now) (value_in (known_of state.old).scope name.now)) }
    ensures inherited { OnOk result (inherited_by state.new ≡ inherited_by state.old) }
    ensures consistent { OnOk result (IsConsistent state.new) }
{
    if state.scope.get(name).is_some() {
        return Err(EvalError::Bad(Fault::on(alloc, FaultKind::VariableSet, at, name.copy(alloc)?)));
    }
    let new = value_of(alloc, &state.scope, value)?;
    mark(&mut state.used, value)?;
    state.scope.set(alloc, name, new)?;
    Ok(())
}

/// `name += term`, where the name isn't inherited.
fn extend<'a>(
    alloc: Global,
    state: &mut State<'a>,
    name: &'a Text,
    at: Place,
    term: &'a Expr,
) -> Result<(), EvalError>
    requires own { value_in (inherited_by state.old) name.now ≡ None }
    requires consistent { IsConsistent state.old }
    ensures known { Leaves known_of state.new result (after_extension (known_of state.old) name.now at
        (tree_of term.now) (value_in (known_of state.old).scope name.now)) }
    ensures inherited { OnOk result (inherited_by state.new ≡ inherited_by state.old) }
    ensures consistent { OnOk result (IsConsistent state.new) }
{
    if state.scope.get(name).is_none() {
        return Err(EvalError::Bad(Fault::on(
            alloc,
            FaultKind::UnknownVariable,
            at,
            name.copy(alloc)?,
        )));
    }
    if state.used.has(name.as_str()) {
        return Err(EvalError::Bad(Fault::on(alloc, FaultKind::AfterUse, at, name.copy(alloc)?)));
    }
    let other = value_of(alloc, &state.scope, term)?;
    mark(&mut state.used, term)?;
    let variable = name.as_str();
    let old = state.scope.replace(alloc, name, Value::Bool(false))?;
    let indices = state.kept.keep(variable, None)?;
    let (new, indices) = add_to(alloc, old, indices, other, at)?;
    state.kept.keep(variable, indices)?;
    state.scope.replace(alloc, name, new)?;
    Ok(())
}

/// `kind { .. }`
fn declare<'a>(
    alloc: Global,
    state: &mut State<'a>,
    kind: &Text,
    at: Place,
    body: &'a MapExpr,
) -> Result<(), EvalError>
    requires consistent { IsConsistent state.old }
    ensures known { Leaves known_of state.new result (after_module (known_of state.old) kind.now at (map_of body.now)) }
    ensures inherited { OnOk result (inherited_by state.new ≡ inherited_by state.old) }
    ensures consistent { OnOk result (IsConsistent state.new) }
{
    let entries = entries_of(alloc, &state.scope, body)?;
    mark_entries(&mut state.used, body.entries.as_slice())?;
    state.modules.push(RawModule {
        kind: kind.copy(alloc)?,
        at,
        entries,
    })?;
    Ok(())
}

/// One definition.
fn define<'a>(alloc: Global, state: &mut State<'a>, def: &'a Def) -> Result<(), EvalError>
    requires consistent { IsConsistent state.old }
    ensures known { Leaves known_of state.new result
        (after_definition (inherited_by state.old) (known_of state.old) (definition_of def.now)) }
    ensures inherited { OnOk result (inherited_by state.new ≡ inherited_by state.old) }
    ensures consistent { OnOk result (IsConsistent state.new) }
{
    match def {
        Def::Assign { name, at, value } => assign(alloc, state, name, *at, value),
        Def::Extend { name, at, value } => {
            if state.scope.has_outer(name, state.inherited) {
                return Err(EvalError::Bad(Fault::on(
                    alloc,
                    FaultKind::NotLocal,
                    *at,
                    name.copy(alloc)?,
                )));
            }
            extend(alloc, state, name, *at, value)
        }
        Def::Module { kind, at, body } => declare(alloc, state, kind, *at, body),
    }
}

/// The definitions in turn.
fn define_all<'a>(alloc: Global, state: &mut State<'a>, defs: &'a [Def]) -> Result<(), EvalError>
    requires consistent { IsConsistent state.old }
    ensures known { Leaves known_of state.new result
        (after_definitions (inherited_by state.old) (known_of state.old) (map definition_of defs.now)) }
    ensures inherited { OnOk result (inherited_by state.new ≡ inherited_by state.old) }
    ensures consistent { OnOk result (IsConsistent state.new) }
{
    'defs: for def in defs {
        define(alloc, state, def)?;
    }
    Ok(())
}

/// The modules of a file and its final scope.
///
/// Where there are none, the first fault in the order of evaluation is reported: *nested too deeply*,
/// *unknown variable*, *variable is already set*, *variable is inherited*, *variable was already used*,
/// *cannot add*, *wrong type* or *too many*.
pub fn evaluate(
    alloc: Global,
    tree: &FileTree,
    inherited: &Scope,
) -> Result<(Vec<RawModule>, Scope), EvalError>
    ensures { Answers (λ r. (map raw_of r.0.items, pairs_of r.1)) result
        (file_evaluation (pairs_of inherited.now) (map definition_of tree.now.defs.items)) }
{
    evaluate_from(alloc, tree, inherited.copy(alloc)?)
}

/// As `evaluate`, where the inherited scope is handed over: the names of the file are put into it, and
/// nothing is copied. The names that it inherits stay the outer ones of the final scope.
pub fn evaluate_from(
    alloc: Global,
    tree: &FileTree,
    inherited: Scope,
) -> Result<(Vec<RawModule>, Scope), EvalError>
    ensures values { Answers (λ r. (map raw_of r.0.items, pairs_of r.1)) result
        (file_evaluation (pairs_of inherited) (map definition_of tree.now.defs.items)) }
    ensures outer { IfOk result (λ r. HasOuter (count_of inherited) inherited r.1) }
    ensures count { IfOk result (λ r. count_of inherited ≤ count_of r.1) }
{
    let used = Marks::of(alloc, tree.defs.as_slice())?;
    let mut state = State {
        inherited: inherited.len(),
        scope: inherited,
        kept: KeptIndices::new(alloc),
        used,
        modules: Vec::new(alloc),
    };
    define_all(alloc, &mut state, tree.defs.as_slice())?;
    let State { scope, modules, .. } = state;
    Ok((modules, scope))
}

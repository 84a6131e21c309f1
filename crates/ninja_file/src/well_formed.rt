ghost use Rattle.std.specs.Prelude.{◌≡◌, ◌∷◌, ℕ, List, map, codes, IfOk, IsTrue, ◌↔◌, Contains};
ghost use Rattle.std.specs.List.{All, list_all, flat_map};
ghost use Rattle.std.specs.Map.{keys_of, values_of};
ghost use Rattle.std.specs.Str.{bytes_eq};
ghost use Rattle.bp_names.specs.Meaning.{knows, IsSetOf};
ghost use Rattle.ninja_file.specs.Inside.{HasRuleParts, HasStatementParts};
ghost use Rattle.ninja_file.specs.Names.{is_name, is_value, is_path, is_rule_key};
ghost use Rattle.ninja_file.specs.Meaning.{is_literal, is_piece, are_apart, is_rule_value, IsRule};
ghost use Rattle.ninja_file.specs.Meaning.{IsStatement, IsWellFormed, outs_of};

use crate::listing::{add_texts, keys, set_of};
use crate::names::{is_name, is_path, is_rule_key, is_value};
use crate::{NinjaFile, NinjaRule, Piece, Statement};
use bp_faults::{OutOfMemory, Seq, Text};
use bp_names::NameSet;
use std::alloc::Global;

fn is_literal(piece: &Piece) -> bool
    ensures { result ≡ is_literal piece.now }
{
    matches!(piece, Piece::Lit(_))
}

fn is_piece(piece: &Piece) -> bool
    ensures { result ≡ is_piece piece.now }
{
    match piece {
        Piece::Lit(text) => is_value(text.as_str()),
        Piece::Var(name) => is_name(name.as_str()),
    }
}

fn are_pieces(pieces: &[Piece]) -> bool
    ensures { result ≡ list_all is_piece pieces.now }
{
    pieces.iter().all(|piece| is_piece(piece))
}

fn are_apart(pieces: &[Piece]) -> bool
    ensures { result ≡ are_apart pieces.now }
{
    let mut after_literal = false;
    for piece in pieces {
        let literal = is_literal(piece);
        if after_literal && literal {
            return false;
        }
        after_literal = literal;
    }
    true
}

fn is_rule_value(pieces: &[Piece]) -> bool
    ensures { result ≡ is_rule_value pieces.now }
{
    !pieces.is_empty() && are_pieces(pieces) && are_apart(pieces)
}

fn are_rule_values(bindings: &[(Text, Seq<Piece>)]) -> bool
    ensures { result ≡ list_all (λ binding. is_rule_value binding.1) bindings.now }
{
    bindings
        .iter()
        .all(|binding| is_rule_value(binding.1.as_slice()))
}

fn are_values(variables: &[(Text, Text)]) -> bool
    ensures { result ≡ list_all (λ variable. is_value variable.1) variables.now }
{
    variables
        .iter()
        .all(|variable| is_value(variable.1.as_str()))
}

fn are_paths(paths: &[Text]) -> bool
    ensures { result ≡ list_all is_path paths.now }
{
    paths.iter().all(|path| is_path(path.as_str()))
}

fn are_rule_keys(keys: &[&str]) -> bool
    ensures { result ≡ list_all (λ key. is_rule_key key.now) keys.now }
{
    keys.iter().all(|key| is_rule_key(key))
}

fn are_names(keys: &[&str]) -> bool
    ensures { result ≡ list_all (λ key. is_name key.now) keys.now }
{
    keys.iter().all(|key| is_name(key))
}

// Whether a rule has the parts of one, where its keys differ.
fn has_rule_parts(rule: &NinjaRule, keys: &[&str], key_set: &NameSet<'_>) -> bool
    ensures { IsTrue result ↔ HasRuleParts rule.now keys.now key_set.now }
{
    is_name(rule.name.as_str())
        && rule.name.as_str() != "phony"
        && are_rule_keys(keys)
        && key_set.knows("command")
        && are_rule_values(rule.bindings.as_slice())
}

fn is_rule(alloc: Global, rule: &NinjaRule) -> Result<bool, OutOfMemory>
    ensures { IfOk result (λ good. IsTrue good ↔ IsRule rule.now) }
{
    let listed = keys(alloc, rule.bindings.as_slice())?;
    let keys = listed.as_slice();
    let Some(key_set) = set_of(alloc, keys)? else {
        return Ok(false);
    };
    Ok(has_rule_parts(rule, keys, &key_set))
}

// Whether a statement has the parts of one, where its keys differ.
fn has_statement_parts(statement: &Statement, names: &NameSet<'_>, keys: &[&str]) -> bool
    ensures { IsTrue result ↔ HasStatementParts statement.now names.now keys.now }
{
    let rule = statement.rule.as_str();
    !statement.outs.as_slice().is_empty()
        && are_paths(statement.outs.as_slice())
        && are_paths(statement.ins.as_slice())
        && are_paths(statement.implicit.as_slice())
        && are_paths(statement.order_only.as_slice())
        && (rule == "phony" || names.knows(rule))
        && are_names(keys)
        && are_values(statement.vars.as_slice())
}

fn is_statement(
    alloc: Global,
    names: &NameSet<'_>,
    statement: &Statement,
) -> Result<bool, OutOfMemory>
    ensures { (texts : List (List ℕ)) → IsSetOf texts names.now →
        IfOk result (λ good. IsTrue good ↔ IsStatement texts statement.now) }
{
    let listed = keys(alloc, statement.vars.as_slice())?;
    let keys = listed.as_slice();
    let Some(_) = set_of(alloc, keys)? else {
        return Ok(false);
    };
    Ok(has_statement_parts(statement, names, keys))
}

fn are_rules(alloc: Global, rules: &[NinjaRule]) -> Result<bool, OutOfMemory>
    ensures { IfOk result (λ good. IsTrue good ↔ All IsRule rules.now) }
{
    for rule in rules {
        if !is_rule(alloc, rule)? {
            return Ok(false);
        }
    }
    Ok(true)
}

fn are_statements(
    alloc: Global,
    names: &NameSet<'_>,
    statements: &[Statement],
) -> Result<bool, OutOfMemory>
    ensures { (texts : List (List ℕ)) → IsSetOf texts names.now →
        IfOk result (λ good. IsTrue good ↔ All (IsStatement texts) statements.now) }
{
    for statement in statements {
        if !is_statement(alloc, names, statement)? {
            return Ok(false);
        }
    }
    Ok(true)
}

fn are_listed(set: &NameSet<'_>, texts: &[Text]) -> bool
    ensures { result ≡ list_all (λ text. knows set.now text) texts.now }
{
    texts.iter().all(|text| set.knows(text.as_str()))
}

fn rule_names<'a>(alloc: Global, rules: &'a [NinjaRule]) -> Result<Vec<&'a str>, OutOfMemory>
    ensures { IfOk result (λ names. map (λ name. name.now) names.items ≡ map (λ rule. rule.name) rules.now) }
{
    let mut names = Vec::new(alloc);
    for rule in rules {
        names.push(rule.name.as_str())?;
    }
    Ok(names)
}

fn outs<'a>(alloc: Global, statements: &'a [Statement]) -> Result<Vec<&'a str>, OutOfMemory>
    ensures { IfOk result (λ outs. map (λ out. out.now) outs.items ≡ flat_map (λ s. s.outs) statements.now) }
{
    let mut outs = Vec::new(alloc);
    for statement in statements {
        add_texts(&mut outs, statement.outs.as_slice())?;
    }
    Ok(outs)
}

/// Whether a file is well formed. The outs and the names of the rules are kept in sets meanwhile, so the time is near
/// the size of the file.
pub fn is_well_formed(alloc: Global, f: &NinjaFile) -> Result<bool, OutOfMemory>
    ensures { IfOk result (λ good. IsTrue good ↔ IsWellFormed f.now) }
{
    let listed_names = rule_names(alloc, f.rules.as_slice())?;
    let Some(names) = set_of(alloc, listed_names.as_slice())? else {
        return Ok(false);
    };
    let listed_outs = outs(alloc, f.statements.as_slice())?;
    let Some(outs) = set_of(alloc, listed_outs.as_slice())? else {
        return Ok(false);
    };
    if !are_rules(alloc, f.rules.as_slice())? {
        return Ok(false);
    }
    if !are_statements(alloc, &names, f.statements.as_slice())? {
        return Ok(false);
    }
    Ok(are_listed(&outs, f.defaults.as_slice()))
}

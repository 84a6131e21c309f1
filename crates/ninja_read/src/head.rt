ghost use Rattle.std.specs.Prelude.{◌≡◌, [], IfOk, IfSome, length, option_map};
ghost use Rattle.ninja_read.specs.Heads.{path_of, paths_of, some_paths, before_mark, behind_mark};
ghost use Rattle.ninja_read.specs.Heads.{marked_paths, statement_of, statement_of_words, build_statement};
ghost use Rattle.ninja_read.specs.Heads.{defaults_of, rule_name_of, binding_of};
ghost use Rattle.ninja_lines.specs.Shown.{texts};

use crate::value::{literal_value, split_name};
use bp_faults::{OutOfMemory, Seq, Text};
use ninja_file::{Statement, is_name, is_path};
use ninja_lines::{drop_spaces, parts_at, words};
use std::alloc::Global;

// A word as a path.
fn path(alloc: Global, word: &str) -> Result<Option<Text>, OutOfMemory>
    ensures { IfOk result (λ path. path ≡ path_of word.now) }
{
    let Some(text) = literal_value(alloc, word)? else {
        return Ok(None);
    };
    if is_path(text.as_str()) {
        Ok(Some(text))
    } else {
        Ok(None)
    }
}

fn paths(alloc: Global, words: &[&str]) -> Result<Option<Seq<Text>>, OutOfMemory>
    ensures { IfOk result (λ paths. paths ≡ paths_of (texts words.now)) }
{
    let mut paths = Vec::new(alloc);
    for word in words {
        let Some(path) = path(alloc, word)? else {
            return Ok(None);
        };
        paths.push(path)?;
    }
    Ok(Some(Seq::new(paths)))
}

// One path at least.
fn some_paths(alloc: Global, words: &[&str]) -> Result<Option<Seq<Text>>, OutOfMemory>
    ensures { IfOk result (λ paths. paths ≡ some_paths (texts words.now)) }
{
    if words.is_empty() {
        return Ok(None);
    }
    paths(alloc, words)
}

fn mark_at(words: &[&str], mark: &str) -> usize
    ensures { result ≡ length (before_mark mark.now (texts words.now)) }
{
    for (index, word) in words.iter().enumerate() {
        if *word == mark {
            return index;
        }
    }
    words.len()
}

// The words up to a mark, and those behind it.
fn split_at_mark<'a, 'b>(words: &'b [&'a str], mark: &str) -> (&'b [&'a str], Option<&'b [&'a str]>)
    ensures before { texts result.0.now ≡ before_mark mark.now (texts words.now) }
    ensures behind { option_map (λ rest. texts rest.now) result.1 ≡ behind_mark mark.now (texts words.now) }
{
    let at = mark_at(words, mark);
    if at < words.len() {
        (&words[..at], Some(&words[at + 1..]))
    } else {
        (words, None)
    }
}

// The paths behind a mark, where there is one.
fn marked_paths(alloc: Global, words: Option<&[&str]>) -> Result<Option<Seq<Text>>, OutOfMemory>
    ensures { IfOk result (λ paths. paths ≡ marked_paths (option_map (λ rest. texts rest.now) words.entry)) }
{
    match words {
        None => Ok(Some(Seq::new(Vec::new(alloc)))),
        Some(words) => some_paths(alloc, words),
    }
}

fn statement(
    alloc: Global,
    makes: &[&str],
    rule: &str,
    takes: &[&str],
) -> Result<Option<Statement>, OutOfMemory>
    ensures meant { IfOk result (λ statement. statement ≡ statement_of (texts makes.now) rule.now (texts takes.now)) }
    ensures no_vars { IfOk result (λ statement. IfSome statement (λ s. s.vars ≡ [])) }
{
    let (front, last) = split_at_mark(takes, "||");
    let (first, middle) = split_at_mark(front, "|");
    let Some(outs) = some_paths(alloc, makes)? else {
        return Ok(None);
    };
    let Some(ins) = paths(alloc, first)? else {
        return Ok(None);
    };
    let Some(implicit) = marked_paths(alloc, middle)? else {
        return Ok(None);
    };
    let Some(order_only) = marked_paths(alloc, last)? else {
        return Ok(None);
    };
    Ok(Some(Statement {
        outs,
        rule: Text::from_str(alloc, rule)?,
        ins,
        implicit,
        order_only,
        vars: Seq::new(Vec::new(alloc)),
    }))
}

fn statement_of_words(
    alloc: Global,
    makes: &[&str],
    takes: &[&str],
) -> Result<Option<Statement>, OutOfMemory>
    ensures meant { IfOk result (λ statement. statement ≡ statement_of_words (texts makes.now) (texts takes.now)) }
    ensures no_vars { IfOk result (λ statement. IfSome statement (λ s. s.vars ≡ [])) }
{
    match takes.split_first() {
        None => Ok(None),
        Some((rule, takes)) => statement(alloc, makes, rule, takes),
    }
}

/// The statement that stands behind `build`, without variables.
pub fn build_of(alloc: Global, text: &str) -> Result<Option<Statement>, OutOfMemory>
    ensures meant { IfOk result (λ statement. statement ≡ build_statement text.now) }
    ensures no_vars { IfOk result (λ statement. IfSome statement (λ s. s.vars ≡ [])) }
{
    let parts = parts_at(alloc, text, b':')?;
    if parts.len() != 2 {
        return Ok(None);
    }
    let makes = words(alloc, parts[0])?;
    let takes = words(alloc, parts[1])?;
    statement_of_words(alloc, makes.as_slice(), takes.as_slice())
}

/// The paths that stand behind `default`.
pub fn defaults_of(alloc: Global, text: &str) -> Result<Option<Seq<Text>>, OutOfMemory>
    ensures { IfOk result (λ paths. paths ≡ defaults_of text.now) }
{
    let parts = parts_at(alloc, text, b':')?;
    if parts.len() != 1 {
        return Ok(None);
    }
    let words = words(alloc, parts[0])?;
    some_paths(alloc, words.as_slice())
}

/// The name that stands behind `rule`.
pub fn rule_name_of<'a>(alloc: Global, text: &'a str) -> Result<Option<&'a str>, OutOfMemory>
    ensures { IfOk result (λ name. option_map (λ n. n.now) name ≡ rule_name_of text.now) }
{
    let words = words(alloc, text)?;
    match words.as_slice() {
        [name] if is_name(name) && *name != "phony" => Ok(Some(*name)),
        _ => Ok(None),
    }
}

/// A binding's key, and its value as it is written.
pub fn binding_of(text: &str) -> Option<(&str, &str)>
    ensures { option_map (λ binding. (binding.0.now, binding.1.now)) result ≡ binding_of text.now }
{
    let (key, behind) = split_name(drop_spaces(text));
    if key.is_empty() {
        return None;
    }
    let Some(value) = drop_spaces(behind).strip_prefix('=') else {
        return None;
    };
    Some((key, drop_spaces(value)))
}

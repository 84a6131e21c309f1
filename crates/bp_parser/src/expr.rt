ghost use Rattle.std.specs.Prelude.{◌≡◌, ◌+◌, ◌<◌, ◌≤◌, [], ◌∷◌, length, drop, map, IfOk, IfErr, OnOk, OnErr};
ghost use Rattle.bp_lexer.specs.Meaning.{IsToken, word_of};
ghost use Rattle.bp_parser.specs.declared.flaw.Flaw.TheVariants.{TooNested};
ghost use Rattle.bp_parser.specs.declared.stop.Stop.TheVariants.{Bad};
ghost use Rattle.bp_parser.specs.Trees.{Body, Sum, tree_of, term_of, entry_of, map_of, trees_then, terms_then, no_tree};
ghost use Rattle.bp_parser.specs.Trees.{no_term};
ghost use Rattle.bp_parser.specs.Words.{all_words};
ghost use Rattle.bp_parser.specs.Grammar.{IsPrim, Spells, SpellsTerms, SpellsItems};
ghost use Rattle.bp_parser.specs.Machine.{an_expr, more_terms, items, entries, ReadsOn, StopsWith};
ghost use Rattle.bp_parser.specs.Reading.{AreTokens, HasMark, sum_of};

use crate::atom::atom;
use crate::flaw::Flaw;
use crate::known_names::KnownNames;
use crate::stop::Stop;
use crate::tree::{EntryExpr, Expr, MapExpr};
use crate::words::{after_part, expect, is_mark, name_at, word_at};
use bp_faults::limits::DEEPEST_NESTING;
use bp_faults::{OutOfMemory, Place, Text};
use bp_lexer::{Punct, Token};
use std::alloc::Global;

// Whether one more bracket may be open.
fn check_depth(at: usize, depth: usize) -> Result<(), Stop>
    requires { depth ≤ DEEPEST_NESTING }
    ensures ok { OnOk result (depth < DEEPEST_NESTING) }
    ensures err { IfErr result (λ stop. (stop ≡ Bad (TooNested at)) × (depth ≡ DEEPEST_NESTING)) }
{
    if depth == DEEPEST_NESTING {
        Err(Stop::Bad(Flaw::TooNested(at)))
    } else {
        Ok(())
    }
}

fn sum(alloc: Global, first: Expr, terms: Vec<(Place, Expr)>) -> Result<Expr, OutOfMemory>
    ensures { IfOk result (λ expr. tree_of expr ≡ Sum (tree_of first) (terms_then (map term_of terms.items) no_term)) }
{
    Ok(Expr::Sum(Box::new(alloc, first)?, terms))
}

// A first term and others, or the first alone.
fn sum_of(alloc: Global, first: Expr, terms: Vec<(Place, Expr)>) -> Result<Expr, OutOfMemory>
    ensures { IfOk result
        (λ expr. tree_of expr ≡ sum_of (tree_of first) (terms_then (map term_of terms.items) no_term)) }
{
    if terms.is_empty() {
        return Ok(first);
    }
    sum(alloc, first, terms)
}

// The entry of a name and its value.
fn entry(alloc: Global, text: &str, name: Token, value: Expr) -> Result<EntryExpr, OutOfMemory>
    requires { IsToken name.place.file text.now name }
    ensures { IfOk result (λ entry. entry_of entry
        ≡ record { name = word_of text.now name; at = name.place; value = tree_of value }) }
{
    Ok(EntryExpr {
        name: Text::from_str(alloc, name.text(text))?,
        at: name.place,
        value,
    })
}

/// The expression that begins at a place where `depth` brackets are open, and the place behind it.
#[cycle(parser)]
pub fn expr_at(
    alloc: Global,
    text: &str,
    words: &[Token],
    at: usize,
    depth: usize,
) -> Result<(Expr, usize), Stop>
    requires tokens { AreTokens text.now words.now }
    requires within { at ≤ length words.now }
    requires room { depth ≤ DEEPEST_NESTING }
    ensures spells { IfOk result (λ x. Spells (tree_of x.0) (drop at (all_words text.now words.now))
        (drop x.1 (all_words text.now words.now))) }
    ensures further { IfOk result (λ x. (at < x.1) × (x.1 ≤ length words.now)) }
    ensures goes_on { IfOk result (λ x. ReadsOn (an_expr ∷ []) [] (all_words text.now words.now) depth at x.1) }
    ensures stops { IfErr result (StopsWith (an_expr ∷ []) (all_words text.now words.now) at depth) }
{
    let (first, next) = prim_at(alloc, text, words, at, depth)?;
    let (terms, next) = terms_at(alloc, text, words, next, depth)?;
    Ok((sum_of(alloc, first, terms)?, next))
}

/// The further terms of a sum, each with its `+`.
#[cycle(parser)]
fn terms_at(
    alloc: Global,
    text: &str,
    words: &[Token],
    at: usize,
    depth: usize,
) -> Result<(Vec<(Place, Expr)>, usize), Stop>
    requires tokens { AreTokens text.now words.now }
    requires within { at ≤ length words.now }
    requires room { depth ≤ DEEPEST_NESTING }
    ensures spells { IfOk result (λ x. SpellsTerms (terms_then (map term_of x.0.items) no_term)
        (drop at (all_words text.now words.now)) (drop x.1 (all_words text.now words.now))) }
    ensures further { IfOk result (λ x. (at ≤ x.1) × (x.1 ≤ length words.now)) }
    ensures goes_on { IfOk result (λ x. ReadsOn (more_terms ∷ []) [] (all_words text.now words.now) depth at x.1) }
    ensures stops { IfErr result (StopsWith (more_terms ∷ []) (all_words text.now words.now) at depth) }
{
    let mut terms = Vec::new(alloc);
    let mut next = at;
    'reading: while is_mark(words, next, Punct::Plus) {
        let (term, behind) = prim_at(alloc, text, words, next + 1, depth)?;
        terms.push((words[next].place, term))?;
        next = behind;
    }
    Ok((terms, next))
}

/// The expression that is no sum, which begins at a place.
#[cycle(parser)]
fn prim_at(
    alloc: Global,
    text: &str,
    words: &[Token],
    at: usize,
    depth: usize,
) -> Result<(Expr, usize), Stop>
    requires tokens { AreTokens text.now words.now }
    requires within { at ≤ length words.now }
    requires room { depth ≤ DEEPEST_NESTING }
    ensures prim { IfOk result (λ x. IsPrim (tree_of x.0)) }
    ensures spells { IfOk result (λ x. Spells (tree_of x.0) (drop at (all_words text.now words.now))
        (drop x.1 (all_words text.now words.now))) }
    ensures further { IfOk result (λ x. (at < x.1) × (x.1 ≤ length words.now)) }
    ensures goes_on { IfOk result
        (λ x. ReadsOn (an_expr ∷ []) (more_terms ∷ []) (all_words text.now words.now) depth at x.1) }
    ensures stops { IfErr result (StopsWith (an_expr ∷ []) (all_words text.now words.now) at depth) }
{
    if is_mark(words, at, Punct::OpenBracket) {
        check_depth(at, depth)?;
        let (list, next) = list_at(alloc, text, words, at + 1, depth)?;
        return Ok((Expr::List(words[at].place, list), next));
    }
    if is_mark(words, at, Punct::OpenBrace) {
        check_depth(at, depth)?;
        let (map, next) = map_at(alloc, text, words, at, depth)?;
        return Ok((Expr::Map(map), next));
    }
    let Some(token) = word_at(text, words, at) else {
        return Err(Stop::Bad(Flaw::Unexpected(at)));
    };
    match atom(alloc, text, token)? {
        Some(expr) => Ok((expr, at + 1)),
        None => Err(Stop::Bad(Flaw::Unexpected(at))),
    }
}

/// The items of a list, from behind its bracket, and the place behind the bracket that closes.
/// Around the list `depth` brackets are open.
#[cycle(parser)]
fn list_at(
    alloc: Global,
    text: &str,
    words: &[Token],
    at: usize,
    depth: usize,
) -> Result<(Vec<Expr>, usize), Stop>
    requires tokens { AreTokens text.now words.now }
    requires within { at ≤ length words.now }
    requires room { depth < DEEPEST_NESTING }
    ensures spells { IfOk result (λ x. SpellsItems (trees_then (map tree_of x.0.items) no_tree)
        (drop at (all_words text.now words.now)) (drop x.1 (all_words text.now words.now))) }
    ensures further { IfOk result (λ x. (at < x.1) × (x.1 ≤ length words.now)) }
    ensures goes_on { IfOk result (λ x. ReadsOn (items ∷ []) [] (all_words text.now words.now) depth at x.1) }
    ensures stops { IfErr result (StopsWith (items ∷ []) (all_words text.now words.now) at depth) }
{
    let mut list = Vec::new(alloc);
    let mut next = at;
    'reading: while !is_mark(words, next, Punct::CloseBracket) {
        let (item, behind) = expr_at(alloc, text, words, next, depth + 1)?;
        list.push(item)?;
        next = after_part(words, behind, Punct::CloseBracket)?;
    }
    Ok((list, next + 1))
}

/// The map whose brace stands at a place, and the place behind the brace that closes.
/// Around the map `depth` brackets are open.
#[cycle(parser)]
pub fn map_at(
    alloc: Global,
    text: &str,
    words: &[Token],
    at: usize,
    depth: usize,
) -> Result<(MapExpr, usize), Stop>
    requires tokens { AreTokens text.now words.now }
    requires brace { HasMark Punct.OpenBrace words.now at }
    requires room { depth < DEEPEST_NESTING }
    ensures spells { IfOk result (λ x. Spells (Body (map_of x.0).at (map_of x.0).entries)
        (drop at (all_words text.now words.now)) (drop x.1 (all_words text.now words.now))) }
    ensures further { IfOk result (λ x. (at < x.1) × (x.1 ≤ length words.now)) }
    ensures goes_on { IfOk result
        (λ x. ReadsOn (entries [] ∷ []) [] (all_words text.now words.now) depth (at + 1) x.1) }
    ensures stops { IfErr result (StopsWith (entries [] ∷ []) (all_words text.now words.now) (at + 1) depth) }
{
    let mut known = KnownNames::new(alloc);
    let mut entries = Vec::new(alloc);
    let mut next = at + 1;
    'reading: while !is_mark(words, next, Punct::CloseBrace) {
        let name = name_at(text, words, next)?;
        if !known.learn(name.text(text))? {
            return Err(Stop::Bad(Flaw::Duplicate(next)));
        }
        expect(words, next + 1, Punct::Colon)?;
        let (value, behind) = expr_at(alloc, text, words, next + 2, depth + 1)?;
        entries.push(entry(alloc, text, name, value)?)?;
        next = after_part(words, behind, Punct::CloseBrace)?;
    }
    Ok((
        MapExpr {
            at: words[at].place,
            entries,
        },
        next + 1,
    ))
}

ghost use Rattle.std.specs.Prelude.{◌≡◌, ℕ, ◌+◌, ◌<◌, ◌≤◌, List, not, length, drop, IfOk, IfErr, OnOk, IfSome, IfNone};
ghost use Rattle.std.specs.Prelude.{IsTrue, IsFalse, MatchOption, filter};
ghost use Rattle.std.specs.List.{list_any};
ghost use Rattle.bp_lexer.specs.declared.token.TokenKind.TheVariants.{Ident};
ghost use Rattle.bp_parser.specs.Words.{all_words, is_comment, without_comments};
ghost use Rattle.bp_parser.specs.Machine.{StartsNot};
ghost use Rattle.bp_parser.specs.Reading.{AreTokens, IsTokenAt, HasMark, LacksMark, EndsPart, IsUnexpectedAt};

use crate::flaw::Flaw;
use crate::stop::Stop;
use bp_faults::OutOfMemory;
use bp_lexer::{Punct, Token, TokenKind};
use std::alloc::Global;

fn is_comment(kind: TokenKind) -> bool
    ensures { result ≡ is_comment kind }
{
    matches!(kind, TokenKind::LineComment | TokenKind::BlockComment)
}

// The words of a file: its tokens that are no comments.
fn without_comments(alloc: Global, tokens: &[Token]) -> Result<Vec<Token>, OutOfMemory>
    ensures { IfOk result (λ words. words.items ≡ without_comments tokens.now) }
{
    let mut words = Vec::with_capacity(alloc, tokens.len())?;
    for token in tokens {
        if !is_comment(token.kind) {
            words.push(*token)?;
        }
    }
    Ok(words)
}

fn has_comment(tokens: &[Token]) -> bool
    ensures { result ≡ list_any (λ t. is_comment t.kind) tokens.now }
{
    tokens.iter().any(|token| is_comment(token.kind))
}

/// The words of a file that has comments. Without a comment its tokens are its words.
pub fn kept_words(alloc: Global, tokens: &[Token]) -> Result<Option<Vec<Token>>, OutOfMemory>
    ensures { IfOk result (λ kept. MatchOption kept (tokens.now ≡ without_comments tokens.now)
        (λ words. words.items ≡ without_comments tokens.now)) }
{
    if !has_comment(tokens) {
        return Ok(None);
    }
    Ok(Some(without_comments(alloc, tokens)?))
}

/// The words of a file as a slice: what was kept of its tokens, or all of them.
pub fn words_among<'a>(tokens: &'a [Token], kept: &'a Option<Vec<Token>>) -> &'a [Token]
    requires { MatchOption kept.now (tokens.now ≡ without_comments tokens.now)
        (λ words. words.items ≡ without_comments tokens.now) }
    ensures { result.now ≡ without_comments tokens.now }
{
    match kept {
        Some(words) => words.as_slice(),
        None => tokens,
    }
}

/// The word at a place.
pub fn word_at(text: &str, words: &[Token], at: usize) -> Option<Token>
    requires { AreTokens text.now words.now }
    ensures some { IfSome result (IsTokenAt text.now words.now at) }
    ensures none { IfNone result (length words.now ≤ at) }
{
    match words.get(at) {
        Some(token) => Some(*token),
        None => None,
    }
}

/// The identifier at a place.
pub fn name_at(text: &str, words: &[Token], at: usize) -> Result<Token, Stop>
    requires { AreTokens text.now words.now }
    ensures ok { IfOk result (λ t. IsTokenAt text.now words.now at t × (t.kind ≡ Ident)) }
    ensures err { IfErr result
        (λ stop. IsUnexpectedAt at stop × StartsNot Ident (drop at (all_words text.now words.now))) }
{
    match word_at(text, words, at) {
        Some(token) => {
            if token.kind == TokenKind::Ident {
                Ok(token)
            } else {
                Err(Stop::Bad(Flaw::Unexpected(at)))
            }
        }
        None => Err(Stop::Bad(Flaw::Unexpected(at))),
    }
}

/// Whether the mark stands at a place.
pub fn is_mark(words: &[Token], at: usize, mark: Punct) -> bool
    ensures yes { IsTrue result → HasMark mark words.now at }
    ensures other { IsFalse result → LacksMark mark words.now at }
{
    match words.get(at) {
        Some(token) => token.kind == TokenKind::Punct(mark),
        None => false,
    }
}

/// Passes the mark that has to stand at a place.
pub fn expect(words: &[Token], at: usize, mark: Punct) -> Result<(), Stop>
    ensures ok { OnOk result (HasMark mark words.now at) }
    ensures err { IfErr result (λ stop. IsUnexpectedAt at stop × LacksMark mark words.now at) }
{
    if is_mark(words, at, mark) {
        Ok(())
    } else {
        Err(Stop::Bad(Flaw::Unexpected(at)))
    }
}

/// Where the next part of a list or a map may begin, behind a part: behind a comma, or at the mark that closes.
pub fn after_part(words: &[Token], at: usize, close: Punct) -> Result<usize, Stop>
    ensures ok { IfOk result (EndsPart close words.now at) }
    ensures err { IfErr result
        (λ stop. IsUnexpectedAt at stop × LacksMark Punct.Comma words.now at × LacksMark close words.now at) }
{
    if is_mark(words, at, Punct::Comma) {
        Ok(at + 1)
    } else if is_mark(words, at, close) {
        Ok(at)
    } else {
        Err(Stop::Bad(Flaw::Unexpected(at)))
    }
}

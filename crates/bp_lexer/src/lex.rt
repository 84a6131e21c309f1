ghost use Rattle.std.specs.Prelude.{◌≡◌, ◌+◌, ◌<◌, ◌≤◌, ◌↔◌, length, drop, take, IfOk, IsTrue, IsCharBoundary};
ghost use Rattle.std.specs.Prelude.{string_bytes};
ghost use Rattle.bp_faults.specs.Answers.{Tells};
ghost use Rattle.bp_faults.specs.declared.limits.TheConstants.{LARGEST_FILE};
ghost use Rattle.bp_lexer.specs.declared.class.Class.TheVariants.{White};
ghost use Rattle.bp_lexer.specs.declared.token.TokenKind.TheVariants.{Int};
ghost use Rattle.bp_lexer.specs.Classes.{in_class};
ghost use Rattle.bp_lexer.specs.Forms.{IsLongest};
ghost use Rattle.bp_lexer.specs.Faults.{HasFlaw, IsInRange, lex_fault, first_char};
ghost use Rattle.bp_lexer.specs.Meaning.{LexMeans};
ghost use Rattle.bp_lexer.specs.Places.{place_at};
ghost use Rattle.bp_lexer.specs.Search.{FindsToken, is_plain, has_line_end};

use crate::class::{Class, in_class, run_len};
use crate::flaw::Flaw;
use crate::form::longest_form;
use crate::place::{advance, char_count, place_after, place_along};
use crate::{LexError, Token, TokenKind};
use bp_faults::{Fault, FaultKind, OutOfMemory, Place, Text};
use std::alloc::{AllocError, Global};

// How many bytes of a text there are to a token and the space behind it, where comments are few.
const BYTES_A_TOKEN: usize = 4;

// How many tokens a list has room for at first, at most: a long text may be one comment.
const MOST_ROOM: usize = 4096;

fn is_white(byte: u8) -> bool
    ensures { result ≡ in_class White byte }
{
    byte <= b' ' && in_class(Class::White, byte)
}

fn char_at(alloc: Global, text: &str, at: usize) -> Result<String, AllocError>
    requires { IsCharBoundary text.now at }
    ensures { IfOk result (λ char. string_bytes char ≡ first_char (drop at text.now)) }
{
    text[at..].chars().take(1).collect(alloc)
}

// The fault that a flaw at a place is.
fn fault_of(
    alloc: Global,
    text: &str,
    at: usize,
    place: Place,
    flaw: Flaw,
) -> Result<Fault, OutOfMemory>
    requires short { length text.now ≤ LARGEST_FILE }
    requires within { IsCharBoundary text.now at }
    requires here { place ≡ place_at place.file text.now at }
    requires flaw { HasFlaw (drop at text.now) flaw }
    ensures { IfOk result (λ fault. fault ≡ lex_fault place.file text.now at flaw) }
{
    match flaw {
        Flaw::BadChar => {
            let char = Text::new(char_at(alloc, text, at)?);
            Ok(Fault::on(alloc, FaultKind::BadChar, place, char))
        }
        Flaw::OpenString => Ok(Fault::at(alloc, FaultKind::OpenString, place)),
        Flaw::OpenComment => Ok(Fault::at(alloc, FaultKind::OpenComment, place)),
        Flaw::BadEscape(before) => {
            let slash = at + 1 + before;
            let char = Text::new(char_at(alloc, text, slash + 1)?);
            let place = advance(text.as_bytes(), at, slash, place);
            Ok(Fault::on(alloc, FaultKind::BadEscape, place, char))
        }
        Flaw::BadNumber(len) => {
            let number = Text::from_str(alloc, &text[at..at + len])?;
            Ok(Fault::on(alloc, FaultKind::BadNumber, place, number))
        }
    }
}

fn is_in_range(text: &str, at: usize, len: usize) -> bool
    requires within { at ≤ length text.now }
    requires int { IsLongest (drop at text.now) Int len }
    ensures { IsTrue result ↔ IsInRange (take len (drop at text.now)) }
{
    text[at..at + len].parse::<i64>().is_ok()
}

// The token that begins at a place, and its length.
fn token_at(text: &str, at: usize) -> Result<(TokenKind, usize), Flaw>
    requires within { at < length text.now }
    requires short { length text.now ≤ LARGEST_FILE }
    ensures { FindsToken (drop at text.now) result }
{
    let (kind, len) = longest_form(&text.as_bytes()[at..])?;
    match kind {
        TokenKind::Int => {
            if is_in_range(text, at, len) {
                Ok((kind, len))
            } else {
                Err(Flaw::BadNumber(len))
            }
        }
        _ => Ok((kind, len)),
    }
}

fn is_plain(kind: TokenKind) -> bool
    ensures { result ≡ is_plain kind }
{
    matches!(
        kind,
        TokenKind::Ident | TokenKind::Int | TokenKind::Punct(_)
    )
}

fn has_line_end(kind: TokenKind) -> bool
    ensures { result ≡ has_line_end kind }
{
    matches!(kind, TokenKind::Raw | TokenKind::BlockComment)
}

// The place behind the token that begins at a place.
fn place_behind(bytes: &[u8], at: usize, kind: TokenKind, len: usize, place: Place) -> Place
    requires within { at ≤ length bytes.now }
    requires short { length bytes.now ≤ LARGEST_FILE }
    requires here { place ≡ place_at place.file bytes.now at }
    requires token { IsLongest (drop at bytes.now) kind len }
    ensures { result ≡ place_at place.file bytes.now (at + len) }
{
    if is_plain(kind) {
        place_along(place, len)
    } else if has_line_end(kind) {
        advance(bytes, at, at + len, place)
    } else {
        place_along(place, char_count(&bytes[at..at + len]))
    }
}

/// The tokens of a text, which has at most as many bytes as a file may have, comments among them.
///
/// Where none begins, the first fault is that of the language: *unexpected character*,
/// *unterminated string*, *unterminated comment*, *bad escape* or *number out of range*.
pub fn tokens(alloc: Global, text: &str, file: u32) -> Result<Vec<Token>, LexError>
    requires { length text.now ≤ LARGEST_FILE }
    ensures { Tells (λ tokens. tokens.items) (LexMeans file text.now) result }
{
    let bytes = text.as_bytes();
    let mut tokens = Vec::with_capacity(alloc, MOST_ROOM.min(bytes.len() / BYTES_A_TOKEN))?;
    let mut at = 0;
    let mut place = Place::start(file);
    while at < bytes.len() {
        let byte = bytes[at];
        if byte == b' ' {
            let run = run_len(bytes, at, Class::Space);
            place = place_along(place, run);
            at += run;
        } else if is_white(byte) {
            place = place_after(place, byte);
            at += 1;
        } else {
            match token_at(text, at) {
                Ok((kind, len)) => {
                    let end = at + len;
                    tokens.push(Token {
                        kind,
                        start: at as u32,
                        end: end as u32,
                        place,
                    })?;
                    place = place_behind(bytes, at, kind, len, place);
                    at = end;
                }
                Err(flaw) => return Err(LexError::Bad(fault_of(alloc, text, at, place, flaw)?)),
            }
        }
    }
    Ok(tokens)
}

ghost use Rattle.std.specs.Prelude.{◌≡◌, ◌<◌, ◌≤◌, ◌⊎◌, length, slice_index, IsTrue};
ghost use Rattle.bp_faults.specs.declared.limits.TheConstants.{LARGEST_FILE};
ghost use Rattle.bp_lexer.specs.Classes.{is_digit};
ghost use Rattle.bp_lexer.specs.Search.{Finds};

use crate::TokenKind;
use crate::body::body_len;
use crate::class::{Class, in_class, run_len, second};
use crate::comment::comment_end;
use crate::flaw::Flaw;
use crate::punct::punct_form;

fn int_form(text: &[u8]) -> Result<(TokenKind, usize), Flaw>
    requires first { (slice_index text.now 0 ≡ 45) ⊎ IsTrue (is_digit (slice_index text.now 0)) }
    requires nonempty { 0 < length text.now }
    requires short { length text.now ≤ LARGEST_FILE }
    ensures { Finds text.now result }
{
    let more = run_len(text, 1, Class::Digit);
    if text[0] == b'-' && more == 0 {
        return Err(Flaw::BadChar);
    }
    Ok((TokenKind::Int, 1 + more))
}

fn string_form(text: &[u8]) -> Result<(TokenKind, usize), Flaw>
    requires first { slice_index text.now 0 ≡ 34 }
    requires nonempty { 0 < length text.now }
    requires short { length text.now ≤ LARGEST_FILE }
    ensures { Finds text.now result }
{
    let inner = body_len(&text[1..])?;
    Ok((TokenKind::Quoted, inner + 2))
}

fn raw_form(text: &[u8]) -> Result<(TokenKind, usize), Flaw>
    requires first { slice_index text.now 0 ≡ 96 }
    requires nonempty { 0 < length text.now }
    requires short { length text.now ≤ LARGEST_FILE }
    ensures { Finds text.now result }
{
    let inner = run_len(text, 1, Class::Raw);
    if 1 + inner < text.len() {
        Ok((TokenKind::Raw, inner + 2))
    } else {
        Err(Flaw::OpenString)
    }
}

fn block_form(text: &[u8]) -> Result<(TokenKind, usize), Flaw>
    requires first { slice_index text.now 0 ≡ 47 }
    requires second { slice_index text.now 1 ≡ 42 }
    requires short { length text.now ≤ LARGEST_FILE }
    ensures { Finds text.now result }
{
    match comment_end(&text[2..]) {
        Some(inner) => Ok((TokenKind::BlockComment, inner + 4)),
        None => Err(Flaw::OpenComment),
    }
}

fn comment_form(text: &[u8]) -> Result<(TokenKind, usize), Flaw>
    requires first { slice_index text.now 0 ≡ 47 }
    requires nonempty { 0 < length text.now }
    requires short { length text.now ≤ LARGEST_FILE }
    ensures { Finds text.now result }
{
    match second(text) {
        b'/' => Ok((TokenKind::LineComment, 2 + run_len(text, 2, Class::Line))),
        b'*' => block_form(text),
        _ => Err(Flaw::BadChar),
    }
}

/// The longest form at the front of a text, and its length.
pub fn longest_form(text: &[u8]) -> Result<(TokenKind, usize), Flaw>
    requires nonempty { 0 < length text.now }
    requires short { length text.now ≤ LARGEST_FILE }
    ensures { Finds text.now result }
{
    let first = text[0];
    if in_class(Class::Letter, first) {
        return Ok((TokenKind::Ident, 1 + run_len(text, 1, Class::Word)));
    }
    if first == b'-' || in_class(Class::Digit, first) {
        return int_form(text);
    }
    if first == b'"' {
        return string_form(text);
    }
    if first == b'`' {
        return raw_form(text);
    }
    if first == b'/' {
        return comment_form(text);
    }
    match punct_form(text) {
        Some((punct, len)) => Ok((TokenKind::Punct(punct), len)),
        None => Err(Flaw::BadChar),
    }
}

ghost use Rattle.std.specs.Prelude.{◌≡◌, ◌≤◌, ◌-◌, ◌+◌, ◌^◌, length, take, drop};
ghost use Rattle.bp_format.specs.Ends.{next_word, begins_definition, is_none_open, is_end};
ghost use Rattle.bp_format.specs.Pieces.{has_line_end};

use crate::kinds::{is_comment, is_ident, wants_value};
use bp_lexer::{Token, TokenKind};

/// Whether an LF stands between two places of a text.
pub fn has_line_end(text: &[u8], from: usize, to: usize) -> bool
    requires order { from ≤ to }
    requires within { to ≤ length text.now }
    ensures { result ≡ has_line_end (take (to - from) (drop from text.now)) }
{
    text[from..to].contains(&b'\n')
}

/// The kind of the first token from a place on that is no comment.
pub fn next_word(tokens: &[Token], from: usize) -> Option<TokenKind>
    ensures { result ≡ next_word (drop from tokens.now) }
{
    let mut at = from;
    while at < tokens.len() {
        let kind = tokens[at].kind;
        if !is_comment(kind) {
            return Some(kind);
        }
        at += 1;
    }
    None
}

fn begins_definition(word: Option<TokenKind>) -> bool
    ensures { result ≡ begins_definition word }
{
    match word {
        Some(kind) => is_ident(kind),
        None => true,
    }
}

fn is_none_open(nest: &[TokenKind]) -> bool
    ensures { result ≡ is_none_open nest.now }
{
    nest.is_empty()
}

/// Whether a definition ends behind a token, with the brackets that are open there.
pub fn is_end(nest: &[TokenKind], kind: TokenKind, tokens: &[Token], next: usize) -> bool
    ensures { result ≡ is_end nest.now kind (drop next tokens.now) }
{
    is_none_open(nest)
        && !(is_comment(kind) || wants_value(kind))
        && begins_definition(next_word(tokens, next))
}

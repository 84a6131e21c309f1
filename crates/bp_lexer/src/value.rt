ghost use Rattle.std.specs.Prelude.{◌≡◌, false, IfOk, encode_utf8_all, chars};
ghost use Rattle.bp_lexer.specs.Meaning.{IsToken, string_of, word_of};
ghost use Rattle.bp_lexer.specs.Strings.{unescaped_chars};

use crate::escape::unescaped;
use crate::{Token, TokenKind};
use bp_faults::{OutOfMemory, Text};
use std::alloc::Global;

// The string that stands between two quotes. Without a backslash it is the text itself.
fn quoted_value(alloc: Global, inner: &str) -> Result<Text, OutOfMemory>
    ensures { IfOk result (λ value. value ≡ encode_utf8_all (unescaped_chars false (chars inner.now))) }
{
    if inner.as_bytes().contains(&b'\\') {
        let text = unescaped(alloc, inner)?;
        return Ok(Text::compact(alloc, text));
    }
    Text::from_str(alloc, inner)
}

/// The string that a token stands for, where `tokens` gave the token for this text.
///
/// A token that is no string stands for its own text.
pub fn value_of(alloc: Global, text: &str, token: &Token) -> Result<Text, OutOfMemory>
    requires { IsToken token.now.place.file text.now token.now }
    ensures { IfOk result (λ value. value ≡ string_of token.now.kind (word_of text.now token.now)) }
{
    let start = token.start as usize;
    let end = token.end as usize;
    match token.kind {
        TokenKind::Quoted => quoted_value(alloc, &text[start + 1..end - 1]),
        TokenKind::Raw => Text::from_str(alloc, &text[start + 1..end - 1]),
        _ => Text::from_str(alloc, &text[start..end]),
    }
}

ghost use Rattle.std.specs.Prelude.{◌≡◌, false, IfOk, string_bytes, encode_utf8_all, chars};
ghost use Rattle.bp_lexer.specs.Strings.{escape_of, unescaped_chars};

use bp_faults::OutOfMemory;
use std::alloc::Global;

/// What a backslash and this character stand for.
pub fn escape_of(c: char) -> Option<char>
    ensures { result ≡ escape_of c }
{
    match c {
        'a' => Some('\u{7}'),
        'b' => Some('\u{8}'),
        'f' => Some('\u{c}'),
        'n' => Some('\n'),
        'r' => Some('\r'),
        't' => Some('\t'),
        'v' => Some('\u{b}'),
        '\\' | '"' => Some(c),
        _ => None,
    }
}

/// The text that stands between two quotes, with its escapes taken.
pub fn unescaped(alloc: Global, inner: &str) -> Result<String, OutOfMemory>
    ensures { IfOk result (λ text. string_bytes text ≡ encode_utf8_all (unescaped_chars false (chars inner.now))) }
{
    let mut text = String::with_capacity(alloc, inner.len())?;
    let mut slash = false;
    for c in inner.chars() {
        if slash {
            text.push(escape_of(c).unwrap_or(c))?;
            slash = false;
        } else if c == '\\' {
            slash = true;
        } else {
            text.push(c)?;
        }
    }
    Ok(text)
}

ghost use Rattle.std.specs.Prelude.{◌≡◌, [], ◌∷◌, ◌<◌, length, slice_index, MatchOption};
ghost use Rattle.bp_lexer.specs.declared.token.TokenKind.TheVariants.{Punct as Mark};
ghost use Rattle.bp_lexer.specs.Forms.{IsLongest, punct_text};

use crate::Punct;
use crate::class::second;

fn punct_of(byte: u8) -> Option<Punct>
    ensures { MatchOption result ((p : Punct) → punct_text p ≡ byte ∷ [] → ⊥) (λ p. punct_text p ≡ byte ∷ []) }
{
    match byte {
        b'{' => Some(Punct::OpenBrace),
        b'}' => Some(Punct::CloseBrace),
        b'[' => Some(Punct::OpenBracket),
        b']' => Some(Punct::CloseBracket),
        b'(' => Some(Punct::OpenParen),
        b')' => Some(Punct::CloseParen),
        b':' => Some(Punct::Colon),
        b',' => Some(Punct::Comma),
        b'=' => Some(Punct::Equal),
        b'+' => Some(Punct::Plus),
        _ => None,
    }
}

/// The longest punctuation mark at the front of a text, and its length.
pub fn punct_form(text: &[u8]) -> Option<(Punct, usize)>
    requires { 0 < length text.now }
    ensures { MatchOption result ((p : Punct) → punct_text p ≡ slice_index text.now 0 ∷ [] → ⊥)
        (λ found. IsLongest text.now (Mark found.0) found.1) }
{
    if text[0] == b'+' && second(text) == b'=' {
        return Some((Punct::PlusEqual, 2));
    }
    let punct = punct_of(text[0])?;
    Some((punct, 1))
}

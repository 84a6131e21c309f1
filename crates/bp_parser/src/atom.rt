ghost use Rattle.std.specs.Prelude.{◌≡◌, IfOk, option_map};
ghost use Rattle.std.specs.Str.Parse.{signed_digits_value};
ghost use Rattle.bp_lexer.specs.declared.token.TokenKind.TheVariants.{Int};
ghost use Rattle.bp_lexer.specs.Meaning.{IsToken, word_of};
ghost use Rattle.bp_parser.specs.Trees.{Leaf, tree_of};
ghost use Rattle.bp_parser.specs.Words.{atom_of, truth_or_name};

use crate::tree::Expr;
use bp_faults::{OutOfMemory, Place, Text};
use bp_lexer::laws::integers_are_numerals;
use bp_lexer::{Token, TokenKind, value_of};
use std::alloc::Global;

fn truth_or_name(alloc: Global, at: Place, name: &str) -> Result<Expr, OutOfMemory>
    ensures { IfOk result (λ expr. tree_of expr ≡ Leaf at (truth_or_name name.now)) }
{
    match name {
        "true" => Ok(Expr::Bool(at, true)),
        "false" => Ok(Expr::Bool(at, false)),
        _ => Ok(Expr::Name(at, Text::from_str(alloc, name)?)),
    }
}

// The lexer lets no integer through that is out of range.
fn int_of(text: &str, token: Token) -> i64
    requires token { IsToken token.place.file text.now token }
    requires int { token.kind ≡ Int }
    ensures { result ≡ signed_digits_value 10 (word_of text.now token) }
{
    integers_are_numerals();
    token.text(text).parse::<i64>().unwrap()
}

/// What a word is by itself as an expression, if it is one.
pub fn atom(alloc: Global, text: &str, token: Token) -> Result<Option<Expr>, OutOfMemory>
    requires { IsToken token.place.file text.now token }
    ensures { IfOk result (λ found. option_map tree_of found
        ≡ option_map (Leaf token.place) (atom_of token.kind (word_of text.now token))) }
{
    let at = token.place;
    match token.kind {
        TokenKind::Ident => Ok(Some(truth_or_name(alloc, at, token.text(text))?)),
        TokenKind::Int => Ok(Some(Expr::Int(at, int_of(text, token)))),
        TokenKind::Quoted | TokenKind::Raw => Ok(Some(Expr::Str(
            at,
            value_of(alloc, text, &token)?,
        ))),
        _ => Ok(None),
    }
}

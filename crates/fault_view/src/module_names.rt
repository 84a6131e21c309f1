ghost use Rattle.std.specs.Prelude.{◌≡◌, ◌++◌, ◌≤◌, [], length, IfOk, OnOk, All};
ghost use Rattle.std.specs.List.{cons_option};
ghost use Rattle.bp_faults.specs.declared.limits.TheConstants.{LARGEST_FILE};
ghost use Rattle.bp_lexer.specs.Meaning.{IsToken, IsTokenList};
ghost use Rattle.fault_view.specs.ModuleNames.{AreNames, is_colon_token, is_string, is_name_entry, first_name};
ghost use Rattle.fault_view.specs.ModuleNames.{token_names};

use bp_faults::{OutOfMemory, Text};
use bp_lexer::laws::{list_or_fault, lists_have_tokens, one_token_list};
use bp_lexer::{LexError, Punct, Token, TokenKind, tokens, value_of};
use std::alloc::Global;

fn is_colon(kind: TokenKind) -> bool
    ensures { result ≡ is_colon_token kind }
{
    match kind {
        TokenKind::Punct(mark) => matches!(mark, Punct::Colon),
        _ => false,
    }
}

fn is_string(kind: TokenKind) -> bool
    ensures { result ≡ is_string kind }
{
    matches!(kind, TokenKind::Quoted | TokenKind::Raw)
}

// Whether three tokens are the word `name`, a colon and a string.
fn is_named(text: &str, word: &Token, colon: &Token, string: &Token) -> bool
    requires { IsToken word.now.place.file text.now word.now }
    ensures { result ≡ is_name_entry text.now word.now colon.now string.now }
{
    word.text(text) == "name" && is_colon(colon.kind) && is_string(string.kind)
}

// The string that stands behind the word `name` and a colon, where the tokens begin with these.
fn first_name(alloc: Global, text: &str, tokens: &[Token]) -> Result<Option<Text>, OutOfMemory>
    requires { All (λ t. IsToken t.place.file text.now t) tokens.now }
    ensures { IfOk result (λ name. name ≡ first_name text.now tokens.now) }
{
    match tokens {
        [word, colon, string, ..] if is_named(text, word, colon, string) => {
            Ok(Some(value_of(alloc, text, string)?))
        }
        _ => Ok(None),
    }
}

// Puts a name, where there is one.
fn push_name(names: &mut Vec<Text>, name: Option<Text>) -> Result<(), OutOfMemory>
    ensures { OnOk result (names.new.items ≡ names.old.items ++ cons_option name []) }
{
    if let Some(name) = name {
        names.push(name)?;
    }
    Ok(())
}

// The names that begin at each of the tokens.
fn names_in(alloc: Global, text: &str, tokens: &[Token]) -> Result<Vec<Text>, OutOfMemory>
    requires { IsTokenList 0 text.now tokens.now }
    ensures { IfOk result (λ names. names.items ≡ token_names text.now tokens.now) }
{
    // Law: so each token has a text.
    lists_have_tokens();
    let mut names = Vec::new(alloc);
    for at in 0..tokens.len() {
        let name = first_name(alloc, text, &tokens[at..])?;
        push_name(&mut names, name)?;
    }
    Ok(names)
}

/// The names of the modules of a text, as its tokens tell them. A text that has no tokens has no names.
pub fn module_names(alloc: Global, text: &str) -> Result<Vec<Text>, OutOfMemory>
    requires { length text.now ≤ LARGEST_FILE }
    ensures { IfOk result (λ names. AreNames text.now names.items) }
{
    // Laws: so there are no other tokens, and none where there is a fault.
    one_token_list();
    list_or_fault();
    match tokens(alloc, text, 0) {
        Ok(tokens) => {
            let names = names_in(alloc, text, &tokens)?;
            Ok(names)
        }
        Err(LexError::Bad(_)) => Ok(Vec::new(alloc)),
        Err(LexError::OutOfMemory) => Err(OutOfMemory),
    }
}

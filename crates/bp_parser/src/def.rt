ghost use Rattle.std.specs.Prelude.{◌≡◌, ◌+◌, ◌<◌, ◌≤◌, length, drop, IfOk, IfErr, false};
ghost use Rattle.bp_lexer.specs.declared.token.TokenKind.TheVariants.{Ident};
ghost use Rattle.bp_lexer.specs.Meaning.{word_of};
ghost use Rattle.bp_parser.specs.Trees.{definition_of};
ghost use Rattle.bp_parser.specs.Words.{all_words, is_truth};
ghost use Rattle.bp_parser.specs.Grammar.{SpellsDef};
ghost use Rattle.bp_parser.specs.Machine.{DefsGoOn, DefsStopWith};
ghost use Rattle.bp_parser.specs.Reading.{AreTokens, IsTokenAt};

use crate::expr::{expr_at, map_at};
use crate::flaw::Flaw;
use crate::stop::Stop;
use crate::tree::Def;
use crate::words::{is_mark, name_at};
use bp_faults::Text;
use bp_lexer::{Punct, Token};
use std::alloc::Global;

fn is_truth(name: &str) -> bool
    ensures { result ≡ is_truth name.now }
{
    matches!(name, "true" | "false")
}

// The name that begins a definition: an identifier, and no boolean.
fn def_name_at(text: &str, words: &[Token], at: usize) -> Result<Token, Stop>
    requires tokens { AreTokens text.now words.now }
    requires within { at < length words.now }
    ensures ok { IfOk result
        (λ t. IsTokenAt text.now words.now at t × (t.kind ≡ Ident) × (is_truth (word_of text.now t) ≡ false)) }
    ensures err { IfErr result (DefsStopWith (all_words text.now words.now) at) }
{
    let name = name_at(text, words, at)?;
    if is_truth(name.text(text)) {
        return Err(Stop::Bad(Flaw::Unexpected(at)));
    }
    Ok(name)
}

/// The definition that begins at a place, and the place behind it.
pub fn def_at(alloc: Global, text: &str, words: &[Token], at: usize) -> Result<(Def, usize), Stop>
    requires tokens { AreTokens text.now words.now }
    requires within { at < length words.now }
    ensures spells { IfOk result (λ x. SpellsDef (definition_of x.0) (drop at (all_words text.now words.now))
        (drop x.1 (all_words text.now words.now))) }
    ensures further { IfOk result (λ x. (at < x.1) × (x.1 ≤ length words.now)) }
    ensures goes_on { IfOk result (λ x. DefsGoOn (all_words text.now words.now) at x.1) }
    ensures stops { IfErr result (DefsStopWith (all_words text.now words.now) at) }
{
    let token = def_name_at(text, words, at)?;
    let name = Text::from_str(alloc, token.text(text))?;
    let at_name = token.place;
    if is_mark(words, at + 1, Punct::OpenBrace) {
        let (body, next) = map_at(alloc, text, words, at + 1, 0)?;
        return Ok((
            Def::Module {
                kind: name,
                at: at_name,
                body,
            },
            next,
        ));
    }
    if is_mark(words, at + 1, Punct::Equal) {
        let (value, next) = expr_at(alloc, text, words, at + 2, 0)?;
        return Ok((
            Def::Assign {
                name,
                at: at_name,
                value,
            },
            next,
        ));
    }
    if is_mark(words, at + 1, Punct::PlusEqual) {
        let (value, next) = expr_at(alloc, text, words, at + 2, 0)?;
        return Ok((
            Def::Extend {
                name,
                at: at_name,
                value,
            },
            next,
        ));
    }
    Err(Stop::Bad(Flaw::Unexpected(at + 1)))
}

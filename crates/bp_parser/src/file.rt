ghost use Rattle.std.specs.Prelude.{◌≡◌, ◌≤◌, [], ◌∷◌, ℕ, length, map, IfOk, IfErr, None, Some, Result, Ok, Err};
ghost use Rattle.bp_faults.specs.Answers.{Tells};
ghost use Rattle.bp_faults.specs.declared.limits.TheConstants.{LARGEST_FILE};
ghost use Rattle.bp_parser.specs.Trees.{definition_of, tree_view};
ghost use Rattle.bp_parser.specs.Words.{all_words};
ghost use Rattle.bp_parser.specs.Grammar.{SpellsFile};
ghost use Rattle.bp_parser.specs.Machine.{stuck, DefsStopWith};
ghost use Rattle.bp_parser.specs.Meaning.{AreTokensOf, ParseMeans, parse_fault, number_of_file, word_place};
ghost use Rattle.bp_parser.specs.Meaning.{word_subject};
ghost use Rattle.bp_parser.specs.Reading.{AreTokens};

use crate::ParseError;
use crate::def::def_at;
use crate::flaw::Flaw;
use crate::stop::Stop;
use crate::tree::{Def, FileTree};
use crate::words::{kept_words, word_at, words_among};
use bp_faults::{Fault, FaultKind, OutOfMemory, Place, Text};
use bp_lexer::laws::lists_have_tokens;
use bp_lexer::{Token, place_of_end};
use std::alloc::Global;

// The number of the file of the first word.
fn file_of(text: &str, words: &[Token]) -> u32
    ensures { result ≡ number_of_file (all_words text.now words.now) }
{
    match words.first() {
        Some(token) => token.place.file,
        None => 0,
    }
}

// Where a word stands, and its text; the end stands where the text ends.
fn subject_at(
    alloc: Global,
    text: &str,
    words: &[Token],
    at: usize,
) -> Result<(Place, Text), OutOfMemory>
    requires tokens { AreTokens text.now words.now }
    requires short { length text.now ≤ LARGEST_FILE }
    ensures { IfOk result (λ x. (x.0 ≡ word_place text.now (all_words text.now words.now) at)
        × (x.1 ≡ word_subject (all_words text.now words.now) at)) }
{
    match word_at(text, words, at) {
        Some(token) => Ok((token.place, Text::from_str(alloc, token.text(text))?)),
        None => Ok((
            place_of_end(text, file_of(text, words)),
            Text::from_str(alloc, "end of file")?,
        )),
    }
}

// The fault that a flaw is.
fn fault_of(alloc: Global, text: &str, words: &[Token], flaw: Flaw) -> Result<Fault, OutOfMemory>
    requires tokens { AreTokens text.now words.now }
    requires short { length text.now ≤ LARGEST_FILE }
    ensures { IfOk result (λ fault. fault ≡ parse_fault text.now (all_words text.now words.now) flaw) }
{
    match flaw {
        Flaw::Unexpected(at) => {
            let (place, subject) = subject_at(alloc, text, words, at)?;
            Ok(Fault::on(alloc, FaultKind::Expected, place, subject))
        }
        Flaw::TooNested(at) => {
            let (place, _) = subject_at(alloc, text, words, at)?;
            Ok(Fault::at(alloc, FaultKind::TooNested, place))
        }
        Flaw::Duplicate(at) => {
            let (place, subject) = subject_at(alloc, text, words, at)?;
            Ok(Fault::on(alloc, FaultKind::DuplicateProperty, place, subject))
        }
    }
}

// The definitions of a file, from its first word to its last.
fn defs(alloc: Global, text: &str, words: &[Token]) -> Result<Vec<Def>, Stop>
    requires { AreTokens text.now words.now }
    ensures spells { IfOk result (λ defs. SpellsFile (map definition_of defs.items) (all_words text.now words.now)) }
    ensures whole { IfOk result (λ defs. stuck (all_words text.now words.now) 0 [] ≡ None) }
    ensures stops { IfErr result (DefsStopWith (all_words text.now words.now) 0) }
{
    let mut defs = Vec::new(alloc);
    let mut next = 0;
    'reading: while next < words.len() {
        let (def, behind) = def_at(alloc, text, words, next)?;
        defs.push(def)?;
        next = behind;
    }
    Ok(defs)
}

/// The tree of a text with its tokens, comments among them.
///
/// Where there is none, the first fault is *unexpected token*, *nested too deeply* or *duplicate property*.
/// The length is that which `tokens` requires, so whoever has its tokens has it.
pub fn parse(alloc: Global, text: &str, tokens: &[Token]) -> Result<FileTree, ParseError>
    requires tokens { AreTokensOf text.now tokens.now }
    requires short { length text.now ≤ LARGEST_FILE }
    ensures { Tells tree_view (ParseMeans text.now tokens.now) result }
{
    lists_have_tokens();
    let kept = kept_words(alloc, tokens)?;
    let words = words_among(tokens, &kept);
    match defs(alloc, text, words) {
        Ok(defs) => Ok(FileTree {
            file: file_of(text, words),
            defs,
        }),
        Err(Stop::Bad(flaw)) => Err(ParseError::Bad(fault_of(alloc, text, words, flaw)?)),
        Err(Stop::OutOfMemory) => Err(ParseError::OutOfMemory),
    }
}

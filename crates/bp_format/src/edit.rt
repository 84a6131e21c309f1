ghost use Rattle.std.specs.Prelude.{◌≡◌, ◌≤◌, ◌++◌, ℕ, Some, IfOk, OnOk, length, take, drop, map, string_bytes};
ghost use Rattle.std.specs.Prelude.{IsCharBoundary};
ghost use Rattle.bp_faults.specs.Answers.{Tells};
ghost use Rattle.bp_lexer.specs.declared.token.TokenKind.TheVariants.{Ident};
ghost use Rattle.bp_lexer.specs.Forms.{IsForm};
ghost use Rattle.bp_lexer.specs.Meaning.{IsTokenList};
ghost use Rattle.bp_format.specs.Editing.{EditMeans, put_in};
ghost use Rattle.bp_format.specs.Spans.{span};

use crate::EditError;
use crate::file::too_long;
use crate::quote::push_list;
use crate::spans::span;
use crate::spot::{Spot, find_spot};
use bp_faults::limits::LARGEST_FILE;
use bp_faults::{OutOfMemory, Text};
use bp_lexer::laws::{places_rise, tokens_stand_within};
use bp_lexer::{Token, tokens};
use bp_parser::parse;
use std::alloc::Global;

// Puts what is put into the span.
fn push_put_in(
    out: &mut String,
    spot: Spot,
    property: &Text,
    items: &[Text],
) -> Result<(), OutOfMemory>
    ensures { OnOk result (string_bytes out.new ≡ string_bytes out.old ++ put_in property.now items.now spot) }
{
    match spot {
        Spot::Instead(_) => push_list(out, items),
        Spot::Behind(_) => {
            out.push_str(", ")?;
            out.push_str(property.as_str())?;
            out.push_str(": ")?;
            push_list(out, items)
        }
    }
}

// The text with what is put into its span.
fn edited(
    alloc: Global,
    text: &str,
    tokens: &[Token],
    bounds: (usize, usize),
    spot: Spot,
    property: &Text,
    items: &[Text],
) -> Result<String, OutOfMemory>
    requires listed { (file : ℕ) × IsTokenList file text.now tokens.now }
    requires spanned { span spot tokens.now ≡ Some bounds }
    ensures { IfOk result (λ out. string_bytes out
        ≡ take bounds.0 text.now ++ (put_in property.now items.now spot ++ drop bounds.1 text.now)) }
{
    tokens_stand_within();
    let mut out = String::new(alloc);
    out.push_str(&text[..bounds.0])?;
    push_put_in(&mut out, spot, property, items)?;
    out.push_str(&text[bounds.1..])?;
    Ok(out)
}

/// The text with a property set to a list of strings, in the first module that has the name. The text has
/// at most 2^20 bytes, and the property is an identifier.
///
/// Only the old list gives way. Where the module hasn't the property, it is put behind the name.
/// The faults are those of the text's tokens, then those of its tree, then *no such module* or *not a list*,
/// then *text is too long*.
pub fn set_list(
    alloc: Global,
    text: &str,
    file: u32,
    name: &Text,
    property: &Text,
    items: &[Text],
) -> Result<String, EditError>
    requires short { length text.now ≤ LARGEST_FILE }
    requires name { IsForm Ident property.now }
    ensures { Tells string_bytes
        (EditMeans file text.now record { name = name.now; property = property.now; items = items.now }) result }
{
    tokens_stand_within();
    places_rise();
    let tokens = tokens(alloc, text, file)?;
    let tree = parse(alloc, text, tokens.as_slice())?;
    let spot = find_spot(alloc, file, name, property, tree.defs.as_slice())?;
    let bounds = span(spot, tokens.as_slice()).unwrap();
    let out = edited(
        alloc,
        text,
        tokens.as_slice(),
        bounds,
        spot,
        property,
        items,
    )?;
    if out.len() as u64 <= LARGEST_FILE {
        Ok(out)
    } else {
        Err(EditError::Bad(too_long(alloc, file)))
    }
}

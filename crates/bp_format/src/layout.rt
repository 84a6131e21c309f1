ghost use Rattle.std.specs.Prelude.{MatchOption, ◌≡◌, ◌<◌, ◌≤◌, ◌+◌, [], IfOk, OnOk, length, drop, slice_index_or};
ghost use Rattle.std.specs.Prelude.{string_bytes, ◌++◌, replicate, ◌*◌, Some, None, ℕ, List};
ghost use Rattle.bp_lexer.specs.declared.token.Token.{Token};
ghost use Rattle.bp_lexer.specs.Meaning.{IsToken, IsTokenList};
ghost use Rattle.bp_format.specs.Gaps.{gap_text};
ghost use Rattle.bp_format.specs.Layout.{gap_behind, layout};
ghost use Rattle.bp_format.specs.Ends.{piece, pieces, kind_at};

use crate::brackets::{in_call, nest_depth, turn};
use crate::ends::{has_line_end, is_end};
use crate::gap::{Gap, Seam};
use bp_faults::OutOfMemory;
use bp_faults::limits::LARGEST_FILE;
use bp_lexer::laws::lists_have_tokens;
use bp_lexer::{Token, TokenKind};
use std::alloc::Global;

fn kind_at(tokens: &[Token], at: usize) -> Option<TokenKind>
    ensures { result ≡ kind_at (drop at tokens.now) }
{
    match tokens.get(at) {
        Some(token) => Some(token.kind),
        None => None,
    }
}

// The gap behind a token, with the brackets that are open there and the kind of the token before it.
fn gap_behind(
    text: &str,
    tokens: &[Token],
    at: usize,
    nest: &[TokenKind],
    before: Option<TokenKind>,
) -> Gap
    requires listed { (file : ℕ) × IsTokenList file text.now tokens.now }
    requires within { at < length tokens.now }
    ensures { (d : Token) → result ≡ gap_behind nest.now before
        (piece nest.now text.now (slice_index_or tokens.now at d) (drop (at + 1) tokens.now))
        (pieces nest.now text.now (drop (at + 1) tokens.now)) }
{
    lists_have_tokens();
    let left = tokens[at];
    if at + 1 < tokens.len() {
        let right = tokens[at + 1];
        let seam = Seam {
            before,
            left: left.kind,
            broken: has_line_end(text.as_bytes(), left.end as usize, right.start as usize),
            ends: is_end(nest, left.kind, tokens, at + 1),
            right: right.kind,
            after: kind_at(tokens, at + 2),
            depth: nest_depth(nest),
            in_call: in_call(nest),
        };
        seam.gap()
    } else {
        Gap::Line(0)
    }
}

fn push(out: &mut String, more: &str) -> Result<(), OutOfMemory>
    ensures { OnOk result (string_bytes out.new ≡ string_bytes out.old ++ more.now) }
{
    out.push_str(more)?;
    Ok(())
}

fn push_times(out: &mut String, times: usize) -> Result<(), OutOfMemory>
    ensures { OnOk result (string_bytes out.new ≡ string_bytes out.old ++ replicate (4 * times) 32) }
{
    for done in 0..times {
        push(out, "    ")?;
    }
    Ok(())
}

fn push_gap(out: &mut String, gap: Gap) -> Result<(), OutOfMemory>
    ensures { OnOk result (string_bytes out.new ≡ string_bytes out.old ++ gap_text gap) }
{
    match gap {
        Gap::Nothing => Ok(()),
        Gap::Space => push(out, " "),
        Gap::EmptyLine => push(out, "\n\n"),
        Gap::Line(depth) => {
            push(out, "\n")?;
            push_times(out, depth)
        }
    }
}

/// The layout of the tokens of a text, or none where it is longer than a file may be. It stops there.
pub fn layout(alloc: Global, text: &str, tokens: &[Token]) -> Result<Option<String>, OutOfMemory>
    requires { (file : ℕ) × IsTokenList file text.now tokens.now }
    ensures { IfOk result (λ laid. MatchOption laid (LARGEST_FILE < length (layout (pieces [] text.now tokens.now)))
        (λ out. (string_bytes out ≡ layout (pieces [] text.now tokens.now))
        × (length (string_bytes out) ≤ LARGEST_FILE))) }
{
    lists_have_tokens();
    let mut out = String::new(alloc);
    let mut nest = Vec::new(alloc);
    let mut before = None;
    for at in 0..tokens.len() {
        let token = tokens[at];
        turn(&mut nest, token.kind)?;
        push(&mut out, token.text(text))?;
        push_gap(
            &mut out,
            gap_behind(text, tokens, at, nest.as_slice(), before),
        )?;
        before = Some(token.kind);
        if out.len() as u64 > LARGEST_FILE {
            return Ok(None);
        }
    }
    Ok(Some(out))
}

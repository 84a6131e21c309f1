ghost use Rattle.std.specs.Prelude.{◌≡◌, ◌∷◌, [], ℕ, List, MatchOption, IfOk, IfSome, OnOk, None, ◌≤◌, map};
ghost use Rattle.std.specs.Prelude.{option_map, take, drop, length};
ghost use Rattle.ninja_file.specs.declared.file.Piece.{Piece};
ghost use Rattle.ninja_read.specs.Inside.{built_pieces, with_text, with_sign, IsSign, dollar_at};
ghost use Rattle.ninja_read.specs.Values.{behind_dollar, in_braces, name_length, pieces_of, value_of};

use bp_faults::{OutOfMemory, Text};
use ninja_file::{Escape, Piece, is_escaped_byte, is_name_byte};
use std::alloc::Global;
use std::mem;

/// What a dollar and the bytes behind it stand for.
#[derive(Clone, Copy, Debug)]
pub enum Sign<'a> {
    Escaped(&'a str),
    Variable(&'a str),
}

/// Pieces that are put together: those that are done, and the text behind the last of them.
#[derive(Debug, Drop)]
pub struct Pieces {
    done: Vec<Piece>,
    text: Text,
}

impl Pieces {
    fn new(alloc: Global) -> Pieces
        ensures { (more : List Piece) → built_pieces result more ≡ more }
    {
        Pieces {
            done: Vec::new(alloc),
            text: Text::new(String::new(alloc)),
        }
    }

    fn put_text(&mut self, text: &str) -> Result<(), OutOfMemory>
        ensures { OnOk result
            ((more : List Piece) → built_pieces self.new more ≡ built_pieces self.old (with_text text.now more)) }
    {
        self.text.push_str(text)?;
        Ok(())
    }

    // Ends the text that stands behind the last piece.
    fn end_text(&mut self, alloc: Global) -> Result<(), OutOfMemory>
        ensures { OnOk result ((self.new.text ≡ []) × (self.new.done.items ≡ built_pieces self.old [])) }
    {
        if self.text.as_str().is_empty() {
            return Ok(());
        }
        let text = mem::replace(&mut self.text, Text::new(String::new(alloc)));
        self.done.push(Piece::Lit(text))?;
        Ok(())
    }

    fn put_variable(&mut self, alloc: Global, name: &str) -> Result<(), OutOfMemory>
        ensures { OnOk result
            ((more : List Piece) → built_pieces self.new more ≡ built_pieces self.old (Piece.Var name.now ∷ more)) }
    {
        self.end_text(alloc)?;
        self.done.push(Piece::Var(Text::from_str(alloc, name)?))?;
        Ok(())
    }

    fn put(&mut self, alloc: Global, sign: Sign<'_>) -> Result<(), OutOfMemory>
        ensures { OnOk result
            ((more : List Piece) → built_pieces self.new more ≡ built_pieces self.old (with_sign sign.entry more)) }
    {
        match sign {
            Sign::Escaped(text) => self.put_text(text),
            Sign::Variable(name) => self.put_variable(alloc, name),
        }
    }

    fn finish(mut self, alloc: Global) -> Result<Vec<Piece>, OutOfMemory>
        ensures { IfOk result (λ pieces. pieces.items ≡ built_pieces self []) }
    {
        self.end_text(alloc)?;
        Ok(self.done)
    }
}

fn dollar_at(bytes: &[u8]) -> usize
    ensures { result ≡ dollar_at bytes.now }
{
    for (index, byte) in bytes.iter().enumerate() {
        if *byte == b'$' {
            return index;
        }
    }
    bytes.len()
}

fn name_length(bytes: &[u8]) -> usize
    ensures { result ≡ name_length bytes.now }
{
    for (index, byte) in bytes.iter().enumerate() {
        if !is_name_byte(*byte) {
            return index;
        }
    }
    bytes.len()
}

/// The name that a text begins with, maybe an empty one, and what stands behind it.
pub fn split_name(text: &str) -> (&str, &str)
    ensures { (result.0.now ≡ take (name_length text.now) text.now) ×
        (result.1.now ≡ drop (name_length text.now) text.now) }
{
    text.split_at(name_length(text.as_bytes()))
}

// A name in braces, behind the first of them.
fn braced(text: &str) -> Option<(Sign<'_>, &str)>
    ensures sign { IsSign (in_braces []) text.now result }
    ensures shorter { IfSome result (λ found. length found.1.now ≤ length text.now) }
{
    let (name, behind) = split_name(text);
    if name.is_empty() {
        return None;
    }
    let Some(rest) = behind.strip_prefix('}') else {
        return None;
    };
    Some((Sign::Variable(name), rest))
}

fn first_byte(text: &str) -> Option<u8>
    ensures { MatchOption result (text.now ≡ []) (λ b. (rest : List ℕ) × (text.now ≡ b ∷ rest)) }
{
    text.as_bytes().first().copied()
}

// What stands behind a dollar.
fn sign_of(text: &str) -> Option<(Sign<'_>, &str)>
    ensures sign { IsSign behind_dollar text.now result }
    ensures shorter { IfSome result (λ found. length found.1.now ≤ length text.now) }
{
    let first = first_byte(text)?;
    if is_escaped_byte(Escape::Path, first) {
        let (escaped, rest) = text.split_at(1);
        return Some((Sign::Escaped(escaped), rest));
    }
    if first == b'{' {
        return braced(&text[1..]);
    }
    let (name, rest) = split_name(text);
    if name.is_empty() {
        return None;
    }
    Some((Sign::Variable(name), rest))
}

/// The pieces of a rule's value, or none where a dollar stands before anything that it doesn't take.
pub fn rule_value(alloc: Global, written: &str) -> Result<Option<Vec<Piece>>, OutOfMemory>
    ensures { IfOk result (λ found. option_map (λ pieces. pieces.items) found ≡ pieces_of written.now) }
{
    let mut pieces = Pieces::new(alloc);
    let mut rest = written;
    let mut at = dollar_at(rest.as_bytes());
    while at < rest.len() {
        pieces.put_text(&rest[..at])?;
        let Some((sign, behind)) = sign_of(&rest[at + 1..]) else {
            return Ok(None);
        };
        pieces.put(alloc, sign)?;
        rest = behind;
        at = dollar_at(rest.as_bytes());
    }
    pieces.put_text(rest)?;
    let pieces = pieces.finish(alloc)?;
    Ok(Some(pieces))
}

/// The value of a statement's variable, or what a word of a path stands for: text without variables.
pub fn literal_value(alloc: Global, written: &str) -> Result<Option<Text>, OutOfMemory>
    ensures { IfOk result (λ value. value ≡ value_of written.now) }
{
    let Some(mut pieces) = rule_value(alloc, written)? else {
        return Ok(None);
    };
    let Some(last) = pieces.pop() else {
        return Ok(Some(Text::new(String::new(alloc))));
    };
    if !pieces.is_empty() {
        return Ok(None);
    }
    match last {
        Piece::Lit(text) => Ok(Some(text)),
        Piece::Var(_) => Ok(None),
    }
}

ghost use Rattle.std.specs.Prelude.{◌≡◌, ◌++◌, IfOk, OnOk, codes, map};
ghost use Rattle.std.specs.List.{flat_map};
ghost use Rattle.build_parts.specs.Variables.{word_line};

use crate::gather::{Views, add_texts};
use bp_faults::{OutOfMemory, Text};
use std::alloc::Global;

// How many bytes some parts have together. A count beyond any memory stays where it is.
fn count_bytes(parts: &[&str]) -> usize {
    let mut count = 0usize;
    for part in parts {
        count = count.saturating_add(part.len());
    }
    count
}

/// Parts in a row, with nothing between them. Their memory is taken at once.
pub fn concat(alloc: Global, parts: &[&str]) -> Result<Text, OutOfMemory>
    ensures { IfOk result (λ whole. whole ≡ flat_map (λ part. part.now) parts.now) }
{
    let mut whole = String::with_capacity(alloc, count_bytes(parts))?;
    for part in parts {
        whole.push_str(part)?;
    }
    Ok(Text::new(whole))
}

// Puts words behind a line, each after a space.
fn add_behind(line: &mut Text, words: &[&str]) -> Result<(), OutOfMemory>
    ensures { OnOk result (line.new ≡ line.old ++ flat_map (λ word. codes " " ++ word.now) words.now) }
{
    for word in words {
        line.push_str(" ")?;
        line.push_str(word)?;
    }
    Ok(())
}

/// Words in a row, one space between each two. Their memory is taken at once.
#[tactic(auto, using(crate::proofs::Spaced::spaced_words))]
pub fn join(alloc: Global, words: &[&str]) -> Result<Text, OutOfMemory>
    ensures { IfOk result (λ line. line ≡ word_line (map (λ word. word.now) words.now)) }
{
    let Some((first, others)) = words.split_first() else {
        return Ok(Text::new(String::new(alloc)));
    };
    let mut line = Text::with_room(alloc, count_bytes(words).saturating_add(others.len()))?;
    line.push_str(first)?;
    add_behind(&mut line, others)?;
    Ok(line)
}

/// The same of words that are texts.
pub fn join_texts(alloc: Global, words: &[Text]) -> Result<Text, OutOfMemory>
    ensures { IfOk result (λ line. line ≡ word_line words.now) }
{
    let mut all = Views::new(alloc);
    add_texts(&mut all, words)?;
    join(alloc, all.as_slice())
}

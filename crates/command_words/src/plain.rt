ghost use Rattle.std.specs.Prelude.{◌≡◌, map, IfOk};
ghost use Rattle.command_words.specs.Plain.{long_parts, parts_of_word, plain_words};
ghost use Rattle.command_words.specs.Parts.{words_of_halves};

use bp_faults::{OutOfMemory, Text};
use std::alloc::Global;

// `--option=value` in two.
fn long_halves<'a>(word: &'a str) -> (&'a str, Option<&'a str>)
    ensures { words_of_halves result ≡ long_parts word.now }
{
    match word.split_once('=') {
        Some((option, value)) => (option, Some(value)),
        None => (word, None),
    }
}

// The word, or the two that it stands for.
fn halves<'a>(word: &'a str) -> (&'a str, Option<&'a str>)
    ensures { words_of_halves result ≡ parts_of_word word.now }
{
    match word.as_bytes() {
        [b'-', b'-', ..] => long_halves(word),
        [b'-', second, _, ..] if *second < 128 => {
            let (option, value) = word.split_at(2);
            (option, Some(value))
        }
        _ => (word, None),
    }
}

/// The plain form of the words. What it lists lies in the words.
pub fn plain<'a>(alloc: Global, words: &'a [Text]) -> Result<Vec<&'a str>, OutOfMemory>
    ensures { IfOk result (λ plain. map (λ word. word.now) plain.items ≡ plain_words words.entry.now) }
{
    let mut plain = Vec::new(alloc);
    for word in words {
        let (first, second) = halves(word.as_str());
        plain.push(first)?;
        if let Some(second) = second {
            plain.push(second)?;
        }
    }
    Ok(plain)
}

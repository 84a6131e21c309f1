ghost use Rattle.std.specs.Prelude.{◌≡◌, [], map, option_map, IfOk};
ghost use Rattle.std.specs.List.{list_all, list_any};
ghost use Rattle.command_words.specs.Once.{has_none_twice};
ghost use Rattle.command_words.specs.Values.{is_option_value};
ghost use Rattle.command_words.specs.Options.{is_same};
ghost use Rattle.command_words.specs.Words.{option_pairs, is_same_option, has_required, are_plain_pairs};

use crate::command::options;
use crate::option::option_spelled;
use crate::{CommandName, OptionName};
use bp_faults::{OutOfMemory, Text};
use std::alloc::Global;

/// An option and its value.
#[derive(Debug, Drop)]
pub struct Pair {
    pub option: OptionName,
    pub value: Text,
}

/// Whether a text may be a value: it isn't empty and doesn't begin with `-`.
pub fn is_value_text(value: &str) -> bool
    ensures { result ≡ is_option_value value.now }
{
    match value.as_bytes() {
        [] => false,
        [first, ..] => *first != b'-',
    }
}

/// An option and a copy of its value.
pub fn paired(alloc: Global, option: OptionName, value: &str) -> Result<Pair, OutOfMemory>
    ensures { IfOk result (λ pair. pair ≡ record { option = option; value = value.now }) }
{
    Ok(Pair {
        option,
        value: Text::from_str(alloc, value)?,
    })
}

/// The pairs that the words after a command are, if they are.
pub fn pairs(
    alloc: Global,
    command: CommandName,
    words: &[&str],
) -> Result<Option<Vec<Pair>>, OutOfMemory>
    ensures { IfOk result
        (λ pairs. option_map (λ v. v.items) pairs ≡ option_pairs command (map (λ w. w.now) words.now)) }
{
    let mut pairs = Vec::new(alloc);
    let mut rest = words;
    while let [word, value, more @ ..] = rest {
        match option_spelled(command, word) {
            Some(option) => pairs.push(paired(alloc, option, value)?)?,
            None => return Ok(None),
        }
        rest = more;
    }
    if rest.is_empty() {
        Ok(Some(pairs))
    } else {
        Ok(None)
    }
}

/// Whether some pair is of the option.
pub fn has_option(pairs: &[Pair], option: OptionName) -> bool
    ensures { result ≡ list_any (λ pair. is_same pair.option option) pairs.now }
{
    pairs.iter().any(|pair| pair.option.is(option))
}

// No option is given twice. The work is small: a repeated option ends it.
fn has_no_option_twice(pairs: &[Pair]) -> bool
    ensures { result ≡ has_none_twice is_same_option [] pairs.now }
{
    for (i, pair) in pairs.iter().enumerate() {
        if has_option(&pairs[..i], pair.option) {
            return false;
        }
    }
    true
}

fn has_each_required(command: CommandName, pairs: &[Pair]) -> bool
    ensures { result ≡ has_required command pairs.now }
{
    options(command).iter().all(|option| !option.is_required() || has_option(pairs, *option))
}

fn has_values(pairs: &[Pair]) -> bool
    ensures { result ≡ list_all (λ pair. is_option_value pair.value) pairs.now }
{
    pairs.iter().all(|pair| is_value_text(pair.value.as_str()))
}

/// Whether the pairs are plain.
pub fn is_plain(command: CommandName, pairs: &[Pair]) -> bool
    ensures { result ≡ are_plain_pairs command pairs.now }
{
    has_values(pairs) && has_no_option_twice(pairs) && has_each_required(command, pairs)
}

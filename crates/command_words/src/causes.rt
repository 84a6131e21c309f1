ghost use Rattle.std.specs.Prelude.{◌≡◌, ◌↔◌, ◌++◌, [], ◌&&◌, not, IfOk, MatchResult, IfSome, IsSome, None};
ghost use Rattle.std.specs.Prelude.{Some, find, map};
ghost use Rattle.std.specs.Option.{option_copied};
ghost use Rattle.std.specs.Str.{bytes_eq};
ghost use Rattle.command_words.specs.Causes.{word_cause, place_causes, causes_at, missing_causes, is_equal_path};
ghost use Rattle.command_words.specs.Causes.{path_causes, causes_among};
ghost use Rattle.command_words.specs.Causes.{causes_of_plain, causes_of, first_cause};
ghost use Rattle.command_words.specs.Holds.{HoldsOf};
ghost use Rattle.command_words.specs.Options.{apart_of, is_required, options_of};
ghost use Rattle.command_words.specs.Places.{place_of, places_of};
ghost use Rattle.command_words.specs.Words.{option_of, option_pairs, has_option, option_value, configuration_of};

use crate::cause::Cause;
use crate::command::{command_named, options, options_apart};
use crate::form::is_value_of;
use crate::option::option_spelled;
use crate::pairs::{Pair, has_option, paired};
use crate::plain::plain;
use crate::{CommandName, OptionName};
use bp_faults::{OutOfMemory, Text};
use std::alloc::Global;

// The option that a word behind some pairs spells, or the cause in the word.
fn option_or_cause(
    alloc: Global,
    command: CommandName,
    before: &[Pair],
    word: &str,
) -> Result<Result<OptionName, Cause>, OutOfMemory>
    ensures { IfOk result (λ found. MatchResult found
        (λ option. (option_of command word.now ≡ Some option)
        × (word_cause command (map (λ pair. pair.option) before.now) word.now (Some option) ≡ None))
        (λ cause. word_cause command (map (λ pair. pair.option) before.now) word.now (option_of command word.now)
        ≡ Some cause)) }
{
    match option_spelled(command, word) {
        None => Ok(Err(Cause::UnknownOption(command, Text::from_str(alloc, word)?))),
        Some(option) if has_option(before, option) => {
            Ok(Err(Cause::OptionTwice(Text::from_str(alloc, word)?)))
        }
        Some(option) => Ok(Ok(option)),
    }
}

// The pair of a word and the value behind it, or the first cause in them.
fn pair_or_cause(
    alloc: Global,
    command: CommandName,
    before: &[Pair],
    word: &str,
    value: &str,
) -> Result<Result<Pair, Cause>, OutOfMemory>
    ensures { IfOk result (λ found. MatchResult found
        (λ pair. (option_of command word.now ≡ Some pair.option) × (pair.value ≡ value.now)
        × (place_causes command (map (λ p. p.option) before.now) (place_of command word.now (Some value.now)) ≡ []))
        (λ cause. first_cause (place_causes command (map (λ p. p.option) before.now)
        (place_of command word.now (Some value.now))) ≡ Some cause)) }
{
    match option_or_cause(alloc, command, before, word)? {
        Ok(option) => {
            if is_value_of(alloc, option, value)? {
                Ok(Ok(paired(alloc, option, value)?))
            } else {
                Ok(Err(Cause::ValueOutOfForm(option, Text::from_str(alloc, value)?)))
            }
        }
        Err(cause) => Ok(Err(cause)),
    }
}

// The first cause in the last word, behind which no value stands.
fn last_cause(
    alloc: Global,
    command: CommandName,
    before: &[Pair],
    word: &str,
) -> Result<Cause, OutOfMemory>
    ensures { IfOk result (λ cause. first_cause (place_causes command (map (λ p. p.option) before.now)
        (place_of command word.now None)) ≡ Some cause) }
{
    match option_or_cause(alloc, command, before, word)? {
        Ok(_) => Ok(Cause::ValueMissing(Text::from_str(alloc, word)?)),
        Err(cause) => Ok(cause),
    }
}

// The pairs that the words behind a command are, or the first cause in these words.
fn pairs_or_cause(
    alloc: Global,
    command: CommandName,
    words: &[&str],
) -> Result<Result<Vec<Pair>, Cause>, OutOfMemory>
    ensures { IfOk result (λ found. MatchResult found
        (λ pairs. (option_pairs command (map (λ w. w.now) words.now) ≡ Some pairs.items)
        × (causes_at command [] (places_of command (map (λ w. w.now) words.now)) ≡ []))
        (λ cause. first_cause (causes_at command [] (places_of command (map (λ w. w.now) words.now))) ≡ Some cause)) }
{
    let mut pairs = Vec::new(alloc);
    let mut rest = words;
    while let [word, value, more @ ..] = rest {
        match pair_or_cause(alloc, command, pairs.as_slice(), word, value)? {
            Ok(pair) => pairs.push(pair)?,
            Err(cause) => return Ok(Err(cause)),
        }
        rest = more;
    }
    match rest {
        [word] => Ok(Err(last_cause(alloc, command, pairs.as_slice(), word)?)),
        _ => Ok(Ok(pairs)),
    }
}

// The first option that must be given and isn't.
fn missing_option(command: CommandName, pairs: &[Pair]) -> Option<OptionName>
    ensures { result ≡ find (λ o. is_required o && not (has_option o pairs.now)) (options_of command) }
{
    options(command).iter().copied().find(|option| option.is_required()
        && !has_option(pairs, *option))
}

// The value that an option is given.
fn value_given(pairs: &[Pair], option: OptionName) -> Option<&Text>
    ensures { option_copied result ≡ option_value pairs.now option }
{
    pairs
        .iter()
        .find(|pair| pair.option.is(option))
        .map(|pair| &pair.value)
}

// Whether OUT is the path of an option.
fn is_equal_path(out: &Text, path: Option<&Text>) -> bool
    ensures { result ≡ is_equal_path out.now (option_copied path.entry) }
{
    match path {
        Some(path) => out.as_str() == path.as_str(),
        None => false,
    }
}

// The first option whose path is OUT, from which it differs.
fn equal_option(command: CommandName, pairs: &[Pair], out: &Text) -> Option<OptionName>
    ensures { result ≡ find (λ o. is_equal_path out.now (option_value pairs.now o)) (apart_of command) }
{
    options_apart(command)
        .iter()
        .copied()
        .find(|option| is_equal_path(out, value_given(pairs, *option)))
}

// The cause in the paths of some pairs.
fn path_cause(
    alloc: Global,
    command: CommandName,
    pairs: &[Pair],
) -> Result<Option<Cause>, OutOfMemory>
    ensures { IfOk result (λ cause. cause ≡ first_cause (path_causes command (option_value pairs.now))) }
{
    let Some(out) = value_given(pairs, OptionName::Out) else {
        return Ok(None);
    };
    match equal_option(command, pairs, out) {
        Some(option) => Ok(Some(Cause::EqualPaths(option, out.copy(alloc)?))),
        None => Ok(None),
    }
}

// The first cause in some pairs: an option that is missing, or equal paths.
fn pairs_cause(
    alloc: Global,
    command: CommandName,
    pairs: &[Pair],
) -> Result<Option<Cause>, OutOfMemory>
    ensures { IfOk result (λ cause. cause ≡ first_cause
        (missing_causes command (λ o. has_option o pairs.now) ++ path_causes command (option_value pairs.now))) }
{
    match missing_option(command, pairs) {
        Some(option) => Ok(Some(Cause::OptionMissing(option))),
        None => path_cause(alloc, command, pairs),
    }
}

// The first cause in the words behind a command.
fn cause_behind(
    alloc: Global,
    command: CommandName,
    words: &[&str],
) -> Result<Option<Cause>, OutOfMemory>
    ensures { IfOk result
        (λ cause. cause ≡ first_cause (causes_among command (places_of command (map (λ w. w.now) words.now)))) }
{
    match pairs_or_cause(alloc, command, words)? {
        Ok(pairs) => pairs_cause(alloc, command, pairs.as_slice()),
        Err(cause) => Ok(Some(cause)),
    }
}

fn cause_in_plain(alloc: Global, words: &[&str]) -> Result<Option<Cause>, OutOfMemory>
    ensures { IfOk result (λ cause. cause ≡ first_cause (causes_of_plain (map (λ word. word.now) words.now))) }
{
    match words {
        [] => Ok(Some(Cause::NoCommand)),
        [first, rest @ ..] => match command_named(first) {
            Some(command) => cause_behind(alloc, command, rest),
            None => Ok(Some(Cause::UnknownCommand(Text::from_str(alloc, first)?))),
        },
    }
}

/// Why the words after the program's name give no configuration: the first cause, if there is one.
pub fn why(alloc: Global, words: &[Text]) -> Result<Option<Cause>, OutOfMemory>
    ensures first { IfOk result (λ cause. cause ≡ first_cause (causes_of words.now)) }
    ensures holds { IfOk result (λ cause. IfSome cause (HoldsOf words.now)) }
    ensures refused { IfOk result (λ cause. IsSome cause ↔ (configuration_of words.now ≡ None)) }
{
    let plain = plain(alloc, words)?;
    cause_in_plain(alloc, plain.as_slice())
}

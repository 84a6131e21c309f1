ghost use Rattle.std.specs.Prelude.{◌≡◌, ◌++◌, IfOk, codes, map, string_bytes};
ghost use Rattle.bp_faults.specs.Line.{shown_char, shown_text};
ghost use Rattle.command_words.specs.Explanations.{names_told, nearest_told, form_text, known_names, long_spelling};
ghost use Rattle.command_words.specs.Explanations.{cause_text, cause_line, explanation_of};
ghost use Rattle.command_words.specs.Options.{command_name, commands, options_of};

use crate::causes::why;
use crate::command::options;
use crate::mutators::MUTATORS;
use crate::targets::TARGETS;
use crate::{COMMANDS, Cause, CommandName, Form, OptionName};
use bp_faults::{OutOfMemory, Text, is_control};
use near_names::{joined, nearest};
use std::alloc::{AllocError, Global};

fn shown_char(c: char) -> char
    ensures { result ≡ shown_char c }
{
    if is_control(c) { '?' } else { c }
}

// The first 80 characters of a word, control characters as question marks.
fn shown(alloc: Global, word: &str) -> Result<String, AllocError>
    ensures { IfOk result (λ shown. string_bytes shown ≡ shown_text word.now) }
{
    word.chars().take(80).map(|c| shown_char(c)).collect(alloc)
}

fn command_names(alloc: Global) -> Result<Vec<Text>, OutOfMemory>
    ensures { IfOk result (λ names. names.items ≡ map command_name commands) }
{
    let mut names = Vec::new(alloc);
    for command in COMMANDS {
        names.push(Text::from_str(alloc, command.name())?)?;
    }
    Ok(names)
}

fn long_spelling(alloc: Global, option: OptionName) -> Result<Text, OutOfMemory>
    ensures { IfOk result (λ spelling. spelling ≡ long_spelling option) }
{
    let name = option.name();
    Ok(Text::new(format!(in alloc; "--{name}")?))
}

fn long_spellings(alloc: Global, command: CommandName) -> Result<Vec<Text>, OutOfMemory>
    ensures { IfOk result (λ spellings. spellings.items ≡ map long_spelling (options_of command)) }
{
    let mut spellings = Vec::new(alloc);
    for option in options(command) {
        spellings.push(long_spelling(alloc, *option)?)?;
    }
    Ok(spellings)
}

fn texts(alloc: Global, names: &[&str]) -> Result<Vec<Text>, OutOfMemory>
    ensures { IfOk result (λ texts. texts.items ≡ map (λ name. name.now) names.now) }
{
    let mut texts = Vec::new(alloc);
    for name in names {
        texts.push(Text::from_str(alloc, name)?)?;
    }
    Ok(texts)
}

fn known_names(alloc: Global, form: Form) -> Result<Vec<Text>, OutOfMemory>
    ensures { IfOk result (λ names. names.items ≡ known_names form) }
{
    match form {
        Form::Targets => texts(alloc, &TARGETS),
        Form::Mutator => texts(alloc, &MUTATORS),
        _ => Ok(Vec::new(alloc)),
    }
}

fn names_told(alloc: Global, names: &[Text]) -> Result<String, OutOfMemory>
    ensures { IfOk result (λ text. string_bytes text ≡ names_told names.now) }
{
    if names.is_empty() {
        return Ok(String::new(alloc));
    }
    let names = joined(alloc, names)?;
    Ok(format!(in alloc; "; nearest: {names}")?)
}

// The known names that are nearest to a word, as the end of a line.
fn nearest_told(alloc: Global, known: &[Text], word: &str) -> Result<String, OutOfMemory>
    ensures { IfOk result (λ text. string_bytes text ≡ nearest_told known.now word.now) }
{
    let names = nearest(alloc, known, word)?;
    names_told(alloc, &names)
}

fn form_text(alloc: Global, form: Form) -> Result<String, AllocError>
    ensures { IfOk result (λ text. string_bytes text ≡ form_text form) }
{
    match form {
        Form::Plain => String::from_str(alloc, "a text that isn't empty and doesn't begin with -"),
        Form::Number(low, high) => {
            format!(in alloc; "a number from {low} to {high}, of 1 to 10 digits")
        }
        Form::Targets => {
            String::from_str(alloc, "names of targets, joined by commas, none twice")
        }
        Form::Mutator => String::from_str(alloc, "the name of a mutator"),
        Form::Identifier => String::from_str(
            alloc,
            "an identifier: a letter or _, and then letters, digits and _",
        ),
        Form::Items => String::from_str(
            alloc,
            "texts joined by commas, none of them empty; the first doesn't begin with -",
        ),
    }
}

fn unknown_command(alloc: Global, word: &str) -> Result<String, OutOfMemory>
    ensures { IfOk result (λ text. string_bytes text ≡ cause_text (Cause.UnknownCommand word.now)) }
{
    let known = command_names(alloc)?;
    let near = nearest_told(alloc, &known, word)?;
    let word = shown(alloc, word)?;
    Ok(format!(in alloc; "unknown command: {word}{near}")?)
}

fn unknown_option(alloc: Global, command: CommandName, word: &str) -> Result<String, OutOfMemory>
    ensures { IfOk result (λ text. string_bytes text ≡ cause_text (Cause.UnknownOption command word.now)) }
{
    let known = long_spellings(alloc, command)?;
    let near = nearest_told(alloc, &known, word)?;
    let word = shown(alloc, word)?;
    let name = command.name();
    Ok(format!(in alloc; "unknown option of {name}: {word}{near}")?)
}

fn value_out_of_form(alloc: Global, option: OptionName, value: &str) -> Result<String, OutOfMemory>
    ensures { IfOk result (λ text. string_bytes text ≡ cause_text (Cause.ValueOutOfForm option value.now)) }
{
    let known = known_names(alloc, option.form())?;
    let near = nearest_told(alloc, &known, value)?;
    let form = form_text(alloc, option.form())?;
    let value = shown(alloc, value)?;
    let name = option.name();
    Ok(format!(in alloc; "value out of form: {value}; --{name} takes {form}{near}")?)
}

// A text and a word.
fn with_word(alloc: Global, text: &str, word: &str) -> Result<String, OutOfMemory>
    ensures { IfOk result (λ all. string_bytes all ≡ text.now ++ shown_text word.now) }
{
    let word = shown(alloc, word)?;
    Ok(format!(in alloc; "{text}{word}")?)
}

fn equal_paths(alloc: Global, option: OptionName, path: &str) -> Result<String, OutOfMemory>
    ensures { IfOk result (λ text. string_bytes text ≡ cause_text (Cause.EqualPaths option path.now)) }
{
    let path = shown(alloc, path)?;
    let name = option.name();
    Ok(format!(in alloc; "equal paths of --out and --{name}: {path}")?)
}

fn option_missing(alloc: Global, option: OptionName) -> Result<String, OutOfMemory>
    ensures { IfOk result (λ text. string_bytes text ≡ cause_text (Cause.OptionMissing option)) }
{
    let name = option.name();
    Ok(format!(in alloc; "missing option: --{name}")?)
}

fn cause_text(alloc: Global, cause: &Cause) -> Result<String, OutOfMemory>
    ensures { IfOk result (λ text. string_bytes text ≡ cause_text cause.now) }
{
    match cause {
        Cause::NoCommand => Ok(String::from_str(alloc, "no command")?),
        Cause::UnknownCommand(word) => unknown_command(alloc, word.as_str()),
        Cause::UnknownOption(command, word) => unknown_option(alloc, *command, word.as_str()),
        Cause::OptionTwice(word) => with_word(alloc, "option given twice: ", word.as_str()),
        Cause::ValueMissing(word) => with_word(alloc, "option without a value: ", word.as_str()),
        Cause::ValueOutOfForm(option, value) => value_out_of_form(alloc, *option, value.as_str()),
        Cause::OptionMissing(option) => option_missing(alloc, *option),
        Cause::EqualPaths(option, path) => equal_paths(alloc, *option, path.as_str()),
    }
}

fn cause_line(alloc: Global, cause: Option<Cause>) -> Result<String, OutOfMemory>
    ensures { IfOk result (λ line. string_bytes line ≡ cause_line cause) }
{
    match cause {
        Some(cause) => {
            let text = cause_text(alloc, &cause)?;
            Ok(format!(in alloc; "{text}\n")?)
        }
        None => Ok(String::from_str(alloc, "these words are accepted\n")?),
    }
}

/// Why the words after the program's name give no configuration, in one line: the first cause with the word that it
/// speaks of, and the known words that are nearest to that word. The line is another where the words give one.
pub fn explanation(alloc: Global, words: &[Text]) -> Result<String, OutOfMemory>
    ensures { IfOk result (λ line. string_bytes line ≡ explanation_of words.now) }
{
    cause_line(alloc, why(alloc, words)?)
}

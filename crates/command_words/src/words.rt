ghost use Rattle.std.specs.Prelude.{◌≡◌, ◌<◌, IfOk, IfSome, option_map, map, length, drop};
ghost use Rattle.command_words.specs.Values.{number_in, mutator_number};
ghost use Rattle.command_words.specs.Words.{and_then, workers_of, default_targets, targets_or_default, items_or_none};
ghost use Rattle.command_words.specs.Words.{is_other, build_with, build_of, replay_with, replay_of, graph_of, synth_of};
ghost use Rattle.command_words.specs.Words.{format_of, edit_with, edit_of, configuration_by, configuration_behind};
ghost use Rattle.command_words.specs.Words.{configuration_of_plain, configuration_of};
ghost use Rattle.command_words.specs.Found.{value_found};
ghost use Rattle.command_words.specs.Words.{IsSoundConfiguration};

use crate::command::command_named;
use crate::items::{is_identifier, items};
use crate::mutators::mutator_number;
use crate::number::number;
use crate::pairs::{is_plain, pairs};
use crate::parser::matches;
use crate::plain::plain;
use crate::targets::targets;
use crate::{Build, CommandName, Configuration, Edit, Format, Graph, OptionName, Replay, Synth};
use bp_faults::limits::{MOST_SYNTHETIC_MODULES, MOST_WORKERS};
use bp_faults::{OutOfMemory, Seq, Target, Text};
use clap::ArgMatches;
use std::alloc::Global;

fn given<'a>(matches: &ArgMatches<'a>, option: OptionName) -> Option<&'a str>
    ensures { option_map (λ text. text.now) result ≡ value_found matches.now option }
{
    matches.get_str(option.name())
}

fn text_given(
    alloc: Global,
    matches: &ArgMatches<'_>,
    option: OptionName,
) -> Result<Option<Text>, OutOfMemory>
    ensures { IfOk result (λ text. text ≡ value_found matches.now option) }
{
    match given(matches, option) {
        Some(text) => Ok(Some(Text::from_str(alloc, text)?)),
        None => Ok(None),
    }
}

fn workers_given(matches: &ArgMatches<'_>) -> Option<u32>
    ensures { result ≡ workers_of (value_found matches.now OptionName.Jobs) }
{
    match given(matches, OptionName::Jobs) {
        Some(text) => number(text, 1, MOST_WORKERS),
        None => Some(4),
    }
}

fn number_given(matches: &ArgMatches<'_>, option: OptionName, low: u32, high: u32) -> Option<u32>
    ensures { result ≡ and_then (value_found matches.now option) (number_in low high) }
{
    number(given(matches, option)?, low, high)
}

fn mutator_given(matches: &ArgMatches<'_>) -> Option<u32>
    ensures { result ≡ and_then (value_found matches.now OptionName.After) mutator_number }
{
    mutator_number(given(matches, OptionName::After)?)
}

fn default_targets(alloc: Global) -> Result<Seq<Target>, OutOfMemory>
    ensures { IfOk result (λ targets. targets ≡ default_targets) }
{
    Ok(Seq::new(vec![in alloc;
        Target::AndroidArm64,
        Target::AndroidArm,
        Target::LinuxGlibcX86_64,
    ]?))
}

fn targets_given(
    alloc: Global,
    matches: &ArgMatches<'_>,
) -> Result<Option<Seq<Target>>, OutOfMemory>
    ensures { IfOk result (λ targets. targets ≡ targets_or_default (value_found matches.now OptionName.Targets)) }
{
    match given(matches, OptionName::Targets) {
        Some(text) => targets(alloc, text),
        None => Ok(Some(default_targets(alloc)?)),
    }
}

fn is_other(out: &Text, path: &Option<Text>) -> bool
    ensures { result ≡ is_other out.now path.now }
{
    match path {
        Some(path) => out.as_str() != path.as_str(),
        None => true,
    }
}

fn built(
    list: Text,
    out: Text,
    workers: u32,
    targets: Seq<Target>,
    journal: Option<Text>,
) -> Option<Configuration>
    ensures { result ≡ build_with list out workers targets journal }
{
    if out.as_str() != list.as_str() && is_other(&out, &journal) {
        Some(Configuration::Build(Build {
            list,
            out,
            workers,
            targets,
            journal,
        }))
    } else {
        None
    }
}

fn build(alloc: Global, matches: &ArgMatches<'_>) -> Result<Option<Configuration>, OutOfMemory>
    ensures { IfOk result (λ configuration. configuration ≡ build_of (value_found matches.now)) }
{
    let list = text_given(alloc, matches, OptionName::List)?;
    let out = text_given(alloc, matches, OptionName::Out)?;
    let journal = text_given(alloc, matches, OptionName::Journal)?;
    let targets = targets_given(alloc, matches)?;
    match (list, out, workers_given(matches), targets) {
        (Some(list), Some(out), Some(workers), Some(targets)) => {
            Ok(built(list, out, workers, targets, journal))
        }
        _ => Ok(None),
    }
}

fn replayed(list: Text, out: Text, order: Text, targets: Seq<Target>) -> Option<Configuration>
    ensures { result ≡ replay_with list out order targets }
{
    if out.as_str() != list.as_str() && out.as_str() != order.as_str() {
        Some(Configuration::Replay(Replay {
            list,
            out,
            order,
            targets,
        }))
    } else {
        None
    }
}

fn replay(alloc: Global, matches: &ArgMatches<'_>) -> Result<Option<Configuration>, OutOfMemory>
    ensures { IfOk result (λ configuration. configuration ≡ replay_of (value_found matches.now)) }
{
    let list = text_given(alloc, matches, OptionName::List)?;
    let out = text_given(alloc, matches, OptionName::Out)?;
    let order = text_given(alloc, matches, OptionName::Order)?;
    let targets = targets_given(alloc, matches)?;
    match (list, out, order, targets) {
        (Some(list), Some(out), Some(order), Some(targets)) => {
            Ok(replayed(list, out, order, targets))
        }
        _ => Ok(None),
    }
}

fn graph(alloc: Global, matches: &ArgMatches<'_>) -> Result<Option<Configuration>, OutOfMemory>
    ensures { IfOk result (λ configuration. configuration ≡ graph_of (value_found matches.now)) }
{
    let list = text_given(alloc, matches, OptionName::List)?;
    let targets = targets_given(alloc, matches)?;
    match (
        list,
        mutator_given(matches),
        workers_given(matches),
        targets,
    ) {
        (Some(list), Some(after), Some(workers), Some(targets)) => {
            Ok(Some(Configuration::Graph(Graph {
                list,
                after,
                workers,
                targets,
            })))
        }
        _ => Ok(None),
    }
}

fn synth(matches: &ArgMatches<'_>) -> Option<Configuration>
    ensures { result ≡ synth_of (value_found matches.now) }
{
    Some(Configuration::Synth(Synth {
        seed: number_given(matches, OptionName::Seed, 0, u32::MAX)?,
        modules: number_given(matches, OptionName::Modules, 1, MOST_SYNTHETIC_MODULES)?,
        workers: workers_given(matches)?,
    }))
}

fn format(alloc: Global, matches: &ArgMatches<'_>) -> Result<Option<Configuration>, OutOfMemory>
    ensures { IfOk result (λ configuration. configuration ≡ format_of (value_found matches.now)) }
{
    let file = text_given(alloc, matches, OptionName::In)?;
    let out = text_given(alloc, matches, OptionName::Out)?;
    match (file, out) {
        (Some(file), Some(out)) => Ok(Some(Configuration::Format(Format { file, out }))),
        _ => Ok(None),
    }
}

fn items_given(alloc: Global, matches: &ArgMatches<'_>) -> Result<Option<Seq<Text>>, OutOfMemory>
    ensures { IfOk result (λ items. items ≡ items_or_none (value_found matches.now OptionName.Items)) }
{
    match given(matches, OptionName::Items) {
        Some(text) => items(alloc, text),
        None => Ok(Some(Seq::new(Vec::new(alloc)))),
    }
}

fn edited(
    file: Text,
    out: Text,
    name: Text,
    property: Text,
    items: Seq<Text>,
) -> Option<Configuration>
    ensures { result ≡ edit_with file out name property items }
{
    if is_identifier(property.as_str()) {
        Some(Configuration::Edit(Edit {
            file,
            out,
            name,
            property,
            items,
        }))
    } else {
        None
    }
}

fn edit(alloc: Global, matches: &ArgMatches<'_>) -> Result<Option<Configuration>, OutOfMemory>
    ensures { IfOk result (λ configuration. configuration ≡ edit_of (value_found matches.now)) }
{
    let file = text_given(alloc, matches, OptionName::In)?;
    let out = text_given(alloc, matches, OptionName::Out)?;
    let name = text_given(alloc, matches, OptionName::Module)?;
    let property = text_given(alloc, matches, OptionName::Property)?;
    let items = items_given(alloc, matches)?;
    match (file, out, name, property, items) {
        (Some(file), Some(out), Some(name), Some(property), Some(items)) => {
            Ok(edited(file, out, name, property, items))
        }
        _ => Ok(None),
    }
}

fn configuration_by(
    alloc: Global,
    command: CommandName,
    matches: &ArgMatches<'_>,
) -> Result<Option<Configuration>, OutOfMemory>
    ensures { IfOk result (λ configuration. configuration ≡ configuration_by command (value_found matches.now)) }
{
    match command {
        CommandName::Build => build(alloc, matches),
        CommandName::Replay => replay(alloc, matches),
        CommandName::Graph => graph(alloc, matches),
        CommandName::Synth => Ok(synth(matches)),
        CommandName::Format => format(alloc, matches),
        CommandName::Edit => edit(alloc, matches),
    }
}

// `words` begin with the command's name.
fn configuration_behind(
    alloc: Global,
    command: CommandName,
    words: &[&str],
) -> Result<Option<Configuration>, OutOfMemory>
    requires { 0 < length words.now }
    ensures { IfOk result (λ c. c ≡ configuration_behind (drop 1 (map (λ word. word.now) words.now)) command) }
{
    match pairs(alloc, command, &words[1..])? {
        Some(pairs) if is_plain(command, pairs.as_slice()) => {
            match matches(alloc, command, words) {
                Ok(matches) => configuration_by(alloc, command, &matches),
                // Plain words are refused for that memory ran out alone.
                Err(_) => Err(OutOfMemory),
            }
        }
        _ => Ok(None),
    }
}

fn configuration_of_plain(
    alloc: Global,
    words: &[&str],
) -> Result<Option<Configuration>, OutOfMemory>
    ensures { IfOk result (λ configuration. configuration ≡ configuration_of_plain (map (λ word. word.now) words.now)) }
{
    match words {
        [] => Ok(None),
        [first, ..] => match command_named(first) {
            Some(command) => configuration_behind(alloc, command, words),
            None => Ok(None),
        },
    }
}

/// The configuration of the words after the program's name, if they give one.
///
/// Reading words takes memory, so it may run out before it is known that they give none. A configuration that is given
/// meets `IsSoundConfiguration`: a caller needs no more to use it.
pub fn configure(alloc: Global, words: &[Text]) -> Result<Option<Configuration>, OutOfMemory>
    ensures exact { IfOk result (λ configuration. configuration ≡ configuration_of words.now) }
    ensures sound { IfOk result (λ configuration. IfSome configuration IsSoundConfiguration) }
{
    let plain = plain(alloc, words)?;
    configuration_of_plain(alloc, plain.as_slice())
}

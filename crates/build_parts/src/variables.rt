ghost use Rattle.std.specs.Prelude.{◌≡◌, ◌++◌, IfOk, OnOk, codes, map};
ghost use Rattle.std.specs.Fmt.{decimal};
ghost use Rattle.std.specs.List.{flat_map};
ghost use Rattle.build_parts.specs.Variables.{variable, target_word, target_by, node_target, flags_of};
ghost use Rattle.build_parts.specs.Variables.{cflags_of, word_line, include_word, include_line, compile_variables};
ghost use Rattle.build_parts.specs.Variables.{link_variables};

use crate::gather::{Views, add_texts};
use crate::line::{join, join_texts};
use crate::sources::Language;
use bp_faults::{OutOfMemory, Path, Seq, Target, Text};
use module_graph::{Axis, Node, Variation};
use module_rules::Record;
use std::alloc::Global;

fn target_word(target: Target) -> &'static str
    ensures { result.now ≡ target_word target }
{
    match target {
        Target::AndroidArm64 => "--target=aarch64-linux-android",
        Target::AndroidArm => "--target=armv7a-linux-androideabi",
        Target::AndroidX86_64 => "--target=x86_64-linux-android",
        Target::AndroidX86 => "--target=i686-linux-android",
        Target::LinuxGlibcX86_64 => "--target=x86_64-linux-gnu",
        Target::LinuxGlibcX86 => "--target=i686-linux-gnu",
    }
}

fn target_by(variation: Variation) -> &'static str
    ensures { result.now ≡ target_by variation }
{
    match variation {
        Variation::Target(target) => target_word(target),
        _ => "",
    }
}

fn target_of(node: &Node<Record<'_>>) -> &'static str
    ensures { result.now ≡ node_target node.now }
{
    target_by(node.vars.get(Axis::Target))
}

// Puts a variable at the end, unless its value is empty.
fn bind(
    alloc: Global,
    variables: &mut Seq<(Text, Text)>,
    key: &str,
    value: Text,
) -> Result<(), OutOfMemory>
    ensures { OnOk result (variables.new ≡ variables.old ++ variable key.now value) }
{
    if !value.as_str().is_empty() {
        variables.push((Text::from_str(alloc, key)?, value))?;
    }
    Ok(())
}

fn level_word(alloc: Global, level: u32) -> Result<Text, OutOfMemory>
    ensures { IfOk result (λ word. word ≡ codes "-DMIN_SDK=" ++ decimal level) }
{
    Ok(Text::new(format!(in alloc; "-DMIN_SDK={level}")?))
}

fn add_cflags<'a>(words: &mut Views<'a>, own: &'a Record<'_>) -> Result<(), OutOfMemory>
    ensures { OnOk result (map (λ word. word.now) words.new.items
        ≡ map (λ word. word.now) words.old.items ++ own.now.base.cflags.items) }
{
    let (flags, pic) = own.cflags();
    add_texts(words, flags)?;
    if pic {
        words.push("-fPIC")?;
    }
    Ok(())
}

fn add_flags<'a>(
    words: &mut Views<'a>,
    own: &'a Record<'_>,
    language: Language,
) -> Result<(), OutOfMemory>
    ensures { OnOk result (map (λ word. word.now) words.new.items
        ≡ map (λ word. word.now) words.old.items ++ flags_of own.now language) }
{
    let base = &own.given().base;
    match language {
        Language::C => {
            add_cflags(words, own)?;
            add_texts(words, base.conlyflags.items())
        }
        Language::Cxx => {
            add_cflags(words, own)?;
            add_texts(words, base.cppflags.items())
        }
        Language::Assembler => add_texts(words, base.asflags.items()),
    }
}

// The flags of a language and other words, in a row.
fn flag_line<'a>(
    alloc: Global,
    own: &'a Record<'_>,
    language: Language,
    others: &'a [Text],
) -> Result<Text, OutOfMemory>
    ensures { IfOk result (λ line. line ≡ word_line (flags_of own.now language ++ others.now)) }
{
    let mut words = Views::new(alloc);
    add_flags(&mut words, own, language)?;
    add_texts(&mut words, others)?;
    join(alloc, words.as_slice())
}

// The flags of a language in a row, and behind them the word of the level, where one is asked for.
fn cflags_of(alloc: Global, own: &Record<'_>, language: Language) -> Result<Text, OutOfMemory>
    ensures { IfOk result (λ line. line ≡ cflags_of own.now language) }
{
    let level = own.level();
    if level != 10_000 {
        let word = level_word(alloc, level)?;
        return flag_line(alloc, own, language, &[word]);
    }
    flag_line(alloc, own, language, &[])
}

// An include directory as the compiler is told it: the root directory is `.`.
fn include_path(path: &Path) -> &str
    ensures { codes "-I" ++ result.now ≡ include_word path.now }
{
    let path = path.as_str();
    if path.is_empty() {
        return ".";
    }
    path
}

// How many bytes the words of include directories take, each with a space. A count beyond any memory stays where it is.
fn count_includes(paths: &[Path]) -> usize {
    let mut count = 0usize;
    for path in paths {
        count = count
            .saturating_add(include_path(path).len())
            .saturating_add(3);
    }
    count
}

// Puts the word of an include directory behind a line.
fn add_include(line: &mut Text, path: &Path) -> Result<(), OutOfMemory>
    ensures { OnOk result (line.new ≡ line.old ++ include_word path.now) }
{
    line.push_str("-I")?;
    line.push_str(include_path(path))?;
    Ok(())
}

// Puts the words of include directories behind a line, each after a space.
fn add_includes(line: &mut Text, paths: &[Path]) -> Result<(), OutOfMemory>
    ensures { OnOk result (line.new ≡ line.old ++ flat_map (λ path. codes " " ++ include_word path) paths.now) }
{
    for path in paths {
        line.push_str(" ")?;
        add_include(line, path)?;
    }
    Ok(())
}

// The words of include directories in a row, one space between each two. Their memory is taken at once.
#[tactic(auto, using(crate::proofs::Spaced::spaced_includes))]
fn join_includes(alloc: Global, paths: &[Path]) -> Result<Text, OutOfMemory>
    ensures { IfOk result (λ line. line ≡ word_line (map include_word paths.now)) }
{
    let Some((first, others)) = paths.split_first() else {
        return Ok(Text::new(String::new(alloc)));
    };
    let mut line = Text::with_room(alloc, count_includes(paths).saturating_sub(1))?;
    add_include(&mut line, first)?;
    add_includes(&mut line, others)?;
    Ok(line)
}

fn includes_of(alloc: Global, own: &Record<'_>) -> Result<Text, OutOfMemory>
    ensures { IfOk result (λ line. line ≡ include_line own.now) }
{
    join_includes(alloc, own.includes())
}

// How many variables some values take.
fn count_filled(values: &[&str]) -> usize {
    let mut count = 0usize;
    for value in values {
        if !value.is_empty() {
            count = count.saturating_add(1);
        }
    }
    count
}

/// The variables of the compile steps of a node in a language.
pub fn compile_variables(
    alloc: Global,
    node: &Node<Record<'_>>,
    language: Language,
) -> Result<Seq<(Text, Text)>, OutOfMemory>
    ensures { IfOk result (λ variables. variables ≡ compile_variables node.now language) }
{
    let target = Text::from_str(alloc, target_of(node))?;
    let cflags = cflags_of(alloc, &node.payload, language)?;
    let includes = includes_of(alloc, &node.payload)?;
    let count = count_filled(&[target.as_str(), cflags.as_str(), includes.as_str()]);
    let mut variables = Seq::new(Vec::with_capacity(alloc, count)?);
    bind(alloc, &mut variables, "target", target)?;
    bind(alloc, &mut variables, "cflags", cflags)?;
    bind(alloc, &mut variables, "includes", includes)?;
    Ok(variables)
}

/// The variables of the link step of a node.
pub fn link_variables(
    alloc: Global,
    node: &Node<Record<'_>>,
) -> Result<Seq<(Text, Text)>, OutOfMemory>
    ensures { IfOk result (λ variables. variables ≡ link_variables node.now) }
{
    let target = Text::from_str(alloc, target_of(node))?;
    let ldflags = join_texts(alloc, node.payload.given().base.ldflags.items())?;
    let count = count_filled(&[target.as_str(), ldflags.as_str()]);
    let mut variables = Seq::new(Vec::with_capacity(alloc, count)?);
    bind(alloc, &mut variables, "target", target)?;
    bind(alloc, &mut variables, "ldflags", ldflags)?;
    Ok(variables)
}

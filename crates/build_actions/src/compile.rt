ghost use Rattle.std.specs.Prelude.{◌≡◌, ◌++◌, IfOk, OnOk, map};
ghost use Rattle.std.specs.List.{filter, list_any};
ghost use Rattle.bp_faults.specs.declared.place.Item.{Item};
ghost use Rattle.build_actions.specs.Compiles.{language_by, language_of, is_header_kind, is_header, headers_of};
ghost use Rattle.build_actions.specs.Compiles.{rule_of, variables_in, compile_step, step_of_file, compile_steps};
ghost use Rattle.build_actions.specs.Inside.{is_written_in, needed_variables, needed_compiler, step_with};

use bp_faults::{Item, OutOfMemory, Seq, Text, copy_all};
use bp_props::Module;
use build_parts::{
    Directory, Language, SourceKind, Views, compile_variables, directory_of, keep_first,
    object_path, one, push_some, source_kind,
};
use module_graph::Node;
use module_rules::Record;
use ninja_file::Statement;
use std::alloc::Global;

/// What the compile steps of a node have in common: where their objects stand, the headers that they may
/// include, and the variables of each language in which a file is written.
#[derive(Debug, Drop)]
pub struct Compiler<'a> {
    pub directory: Directory<'a>,
    pub headers: Seq<Text>,
    pub c: Seq<(Text, Text)>,
    pub cxx: Seq<(Text, Text)>,
    pub assembler: Seq<(Text, Text)>,
}

// The language of a source that is compiled.
fn language_of(file: &Item) -> Option<Language>
    ensures { result ≡ language_of file.now }
{
    match source_kind(file.text.as_str()) {
        Some(SourceKind::Compiled(language)) => Some(language),
        _ => None,
    }
}

fn is_header(file: &Item) -> bool
    ensures { result ≡ is_header file.now }
{
    match source_kind(file.text.as_str()) {
        Some(SourceKind::Header) => true,
        _ => false,
    }
}

fn listed_headers<'a>(alloc: Global, files: &'a [Item]) -> Result<Views<'a>, OutOfMemory>
    ensures { IfOk result (λ headers. map (λ t. t.now) headers.items
        ≡ map (λ (file : Item). file.text) (filter is_header files.now)) }
{
    let mut headers = Views::new(alloc);
    for file in files {
        if is_header(file) {
            headers.push(file.text.as_str())?;
        }
    }
    Ok(headers)
}

// The headers among some files, each once.
fn headers_of(alloc: Global, files: &[Item]) -> Result<Vec<Text>, OutOfMemory>
    ensures { IfOk result (λ headers. headers.items ≡ headers_of files.now) }
{
    let headers = listed_headers(alloc, files)?;
    keep_first(alloc, headers.as_slice())
}

fn is_written_in(language: Language, file: &Item) -> bool
    ensures { result ≡ is_written_in language file.now }
{
    match language_of(file) {
        Some(other) => other == language,
        None => false,
    }
}

fn is_needed(language: Language, files: &[Item]) -> bool
    ensures { result ≡ list_any (is_written_in language) files.now }
{
    for file in files {
        if is_written_in(language, file) {
            return true;
        }
    }
    false
}

// The variables of the steps of a language, where some file is written in it.
fn needed_variables(
    alloc: Global,
    node: &Node<Record<'_>>,
    files: &[Item],
    language: Language,
) -> Result<Seq<(Text, Text)>, OutOfMemory>
    ensures { IfOk result (λ variables. variables ≡ needed_variables node.now files.now language) }
{
    if is_needed(language, files) {
        return compile_variables(alloc, node, language);
    }
    Ok(Seq::new(Vec::new(alloc)))
}

/// What the compile steps of some files of a node have in common.
pub fn compiler_of<'a>(
    alloc: Global,
    module: &'a Module,
    node: &Node<Record<'_>>,
    files: &[Item],
) -> Result<Compiler<'a>, OutOfMemory>
    ensures { IfOk result (λ compiler. compiler ≡ needed_compiler «module».now node.now files.now) }
{
    Ok(Compiler {
        directory: directory_of(alloc, module, node)?,
        headers: Seq::new(headers_of(alloc, files)?),
        c: needed_variables(alloc, node, files, Language::C)?,
        cxx: needed_variables(alloc, node, files, Language::Cxx)?,
        assembler: needed_variables(alloc, node, files, Language::Assembler)?,
    })
}

fn rule_of(language: Language) -> &'static str
    ensures { result.now ≡ rule_of language }
{
    match language {
        Language::C => "cc",
        Language::Cxx => "cxx",
        Language::Assembler => "as",
    }
}

impl<'a> Compiler<'a> {
    fn variables_in(&self, language: Language) -> &[(Text, Text)]
        ensures { result.now ≡ variables_in self.now language }
    {
        match language {
            Language::C => self.c.as_slice(),
            Language::Cxx => self.cxx.as_slice(),
            Language::Assembler => self.assembler.as_slice(),
        }
    }

    // The directory, the headers and the variables of a language, taken over.
    fn into_parts(self, language: Language) -> (Directory<'a>, Seq<Text>, Seq<(Text, Text)>)
        ensures { result ≡ (self.entry.directory, self.entry.headers, variables_in self.entry language) }
    {
        match language {
            Language::C => (self.directory, self.headers, self.c),
            Language::Cxx => (self.directory, self.headers, self.cxx),
            Language::Assembler => (self.directory, self.headers, self.assembler),
        }
    }
}

/// Copies variables.
pub fn copy_variables(
    alloc: Global,
    variables: &[(Text, Text)],
) -> Result<Seq<(Text, Text)>, OutOfMemory>
    ensures { IfOk result (λ copies. copies ≡ variables.now) }
{
    let mut copies = Vec::with_capacity(alloc, variables.len())?;
    for (key, value) in variables {
        copies.push((key.copy(alloc)?, value.copy(alloc)?))?;
    }
    Ok(Seq::new(copies))
}

// A step that takes over its headers and its variables.
fn step_with(
    alloc: Global,
    directory: &Directory<'_>,
    source: &Text,
    language: Language,
    headers: Seq<Text>,
    vars: Seq<(Text, Text)>,
) -> Result<Statement, OutOfMemory>
    ensures { IfOk result (λ statement. statement ≡ step_with directory.now source.now language headers vars) }
{
    Ok(Statement {
        outs: one(alloc, object_path(alloc, directory, source)?)?,
        rule: Text::from_str(alloc, rule_of(language))?,
        ins: one(alloc, source.copy(alloc)?)?,
        implicit: headers,
        order_only: Seq::new(Vec::new(alloc)),
        vars,
    })
}

fn compile(
    alloc: Global,
    compiler: &Compiler<'_>,
    source: &Text,
    language: Language,
) -> Result<Statement, OutOfMemory>
    ensures { IfOk result (λ statement. statement ≡ compile_step compiler.now source.now language) }
{
    let headers = Seq::new(copy_all(alloc, compiler.headers.as_slice())?);
    let vars = copy_variables(alloc, compiler.variables_in(language))?;
    step_with(alloc, &compiler.directory, source, language, headers, vars)
}

// The compile step of a file, where it isn't a header.
fn compile_file(
    alloc: Global,
    compiler: &Compiler<'_>,
    file: &Item,
) -> Result<Option<Statement>, OutOfMemory>
    ensures { IfOk result (λ statement. statement ≡ step_of_file compiler.now file.now) }
{
    match language_of(file) {
        Some(language) => Ok(Some(compile(alloc, compiler, &file.text, language)?)),
        None => Ok(None),
    }
}

// The same of the last file, whose step takes over what the steps before it copied.
fn compile_last(
    alloc: Global,
    compiler: Compiler<'_>,
    file: &Item,
) -> Result<Option<Statement>, OutOfMemory>
    ensures { IfOk result (λ statement. statement ≡ step_of_file compiler.entry file.now) }
{
    let Some(language) = language_of(file) else {
        return Ok(None);
    };
    let (directory, headers, vars) = compiler.into_parts(language);
    let step = step_with(alloc, &directory, &file.text, language, headers, vars)?;
    Ok(Some(step))
}

// Puts the compile steps of some files behind others.
fn add_steps(
    alloc: Global,
    compiler: &Compiler<'_>,
    files: &[Item],
    statements: &mut Vec<Statement>,
) -> Result<(), OutOfMemory>
    ensures { OnOk result (statements.new.items ≡ statements.old.items ++ compile_steps compiler.now files.now) }
{
    for file in files {
        push_some(statements, compile_file(alloc, compiler, file)?)?;
    }
    Ok(())
}

/// The compile steps of some files: one for each that isn't a header. There is room for one statement more.
pub fn compile_all(
    alloc: Global,
    compiler: Compiler<'_>,
    files: &[Item],
) -> Result<Vec<Statement>, OutOfMemory>
    ensures { IfOk result (λ statements. statements.items ≡ compile_steps compiler.entry files.now) }
{
    let mut statements = Vec::with_capacity(alloc, files.len().saturating_add(1))?;
    let Some((last, others)) = files.split_last() else {
        return Ok(statements);
    };
    add_steps(alloc, &compiler, others, &mut statements)?;
    push_some(&mut statements, compile_last(alloc, compiler, last)?)?;
    Ok(statements)
}

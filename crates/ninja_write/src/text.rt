ghost use Rattle.std.specs.Prelude.{◌≡◌, ℕ, ◌<◌, ◌≤◌, List, [], ◌∷◌, ◌++◌, IfOk, IsErrOf, IsUtf8, map};
ghost use Rattle.std.specs.Prelude.{length, codes};
ghost use Rattle.ninja_write.specs.Inside.{Puts, front_text};
ghost use Rattle.ninja_write.specs.Escaped.{lead, value_text};
ghost use Rattle.ninja_write.specs.Meaning.{piece_text, lead_of, pieces_text, binding_line, variable_line};
ghost use Rattle.ninja_write.specs.Meaning.{spaced_path, paths_behind, ins_text, build_line, rule_line, rule_lines};
ghost use Rattle.ninja_write.specs.Meaning.{statement_lines, default_lines, head_line, joined_text};
ghost use Rattle.ninja_write.specs.Meaning.{text_of};
ghost use Rattle.bp_faults.specs.Characters.{ended_line};
ghost use Rattle.bp_faults.specs.declared.limits.TheConstants.{MOST_WORKERS};

use crate::escaped::put_escaped;
use crate::output::{Output, WriteError, Written, least_of_all, put_all};
use crate::part::Part;
use crate::parts::print_behind;
use crate::weights::weights;
use bp_faults::limits::LARGEST_OUTPUT;
use bp_faults::{Seq, Text};
use ninja_file::{Escape, NinjaFile, NinjaRule, Piece, Statement};
use std::alloc::Global;
use std::thread::Threads;

impl Written for Piece {
    ghost text = { piece_text };

    fn put(&self, output: &mut Output) -> Result<(), WriteError> {
        match self {
            Piece::Lit(text) => put_escaped(output, Escape::Value, text.as_str()),
            Piece::Var(name) => {
                output.put("${")?;
                output.put(name.as_str())?;
                output.put_char('}')
            }
        }
    }

    fn least(&self) -> usize {
        0
    }
}

/// A path, behind a space.
impl Written for Text {
    ghost text = { spaced_path };

    fn put(&self, output: &mut Output) -> Result<(), WriteError> {
        output.put_char(' ')?;
        put_escaped(output, Escape::Path, self.as_str())
    }

    fn least(&self) -> usize {
        self.as_str().len()
    }
}

// The dollar before a space that begins a value.
fn put_lead(output: &mut Output, value: &str) -> Result<(), WriteError>
    ensures { Puts (lead value.now) output.old output.new result }
{
    match value.as_bytes() {
        [b' ', ..] => output.put_char('$'),
        _ => Ok(()),
    }
}

fn put_lead_of(output: &mut Output, pieces: &[Piece]) -> Result<(), WriteError>
    ensures { Puts (lead_of pieces.now) output.old output.new result }
{
    match pieces {
        [Piece::Lit(text), ..] => put_lead(output, text.as_str()),
        _ => Ok(()),
    }
}

fn put_value(output: &mut Output, value: &str) -> Result<(), WriteError>
    ensures { Puts (value_text value.now) output.old output.new result }
{
    put_lead(output, value)?;
    put_escaped(output, Escape::Value, value)
}

fn put_pieces(output: &mut Output, pieces: &[Piece]) -> Result<(), WriteError>
    ensures { Puts (pieces_text pieces.now) output.old output.new result }
{
    put_lead_of(output, pieces)?;
    put_all(output, pieces)
}

/// A binding of a rule, as a line.
impl Written for (Text, Seq<Piece>) {
    ghost text = { λ binding. ended_line (binding_line binding) };

    fn put(&self, output: &mut Output) -> Result<(), WriteError> {
        output.put("  ")?;
        output.put(self.0.as_str())?;
        output.put(" = ")?;
        put_pieces(output, self.1.as_slice())?;
        output.put_char('\n')
    }

    fn least(&self) -> usize {
        0
    }
}

/// A variable of a statement, as a line.
impl Written for (Text, Text) {
    ghost text = { λ variable. ended_line (variable_line variable) };

    fn put(&self, output: &mut Output) -> Result<(), WriteError> {
        output.put("  ")?;
        output.put(self.0.as_str())?;
        output.put(" = ")?;
        put_value(output, self.1.as_str())?;
        output.put_char('\n')
    }

    fn least(&self) -> usize {
        let name = self.0.as_str().len();
        name.saturating_add(self.1.as_str().len())
    }
}

fn put_bindings(output: &mut Output, bindings: &[(Text, Seq<Piece>)]) -> Result<(), WriteError>
    ensures { Puts (joined_text (map binding_line bindings.now)) output.old output.new result }
{
    put_all(output, bindings)
}

fn put_rule_line(output: &mut Output, rule: &NinjaRule) -> Result<(), WriteError>
    ensures { Puts (ended_line (rule_line rule.now)) output.old output.new result }
{
    output.put("rule ")?;
    output.put(rule.name.as_str())?;
    output.put_char('\n')
}

impl Written for NinjaRule {
    ghost text = { λ rule. joined_text (rule_lines rule) };

    fn put(&self, output: &mut Output) -> Result<(), WriteError> {
        put_rule_line(output, self)?;
        put_bindings(output, self.bindings.as_slice())
    }

    fn least(&self) -> usize {
        0
    }
}

// Paths behind a mark, where there are any.
fn put_marked(output: &mut Output, mark: &str, paths: &[Text]) -> Result<(), WriteError>
    ensures { Puts (paths_behind mark.now paths.now) output.old output.new result }
{
    if paths.is_empty() {
        return Ok(());
    }
    output.put(mark)?;
    put_all(output, paths)
}

fn put_ins(output: &mut Output, statement: &Statement) -> Result<(), WriteError>
    ensures { Puts (ins_text statement.now) output.old output.new result }
{
    put_all(output, statement.ins.as_slice())?;
    put_marked(output, " |", statement.implicit.as_slice())?;
    put_marked(output, " ||", statement.order_only.as_slice())
}

fn put_variables(output: &mut Output, variables: &[(Text, Text)]) -> Result<(), WriteError>
    ensures { Puts (joined_text (map variable_line variables.now)) output.old output.new result }
{
    put_all(output, variables)
}

fn put_build_line(output: &mut Output, statement: &Statement) -> Result<(), WriteError>
    ensures { Puts (ended_line (build_line statement.now)) output.old output.new result }
{
    output.put("build")?;
    put_all(output, statement.outs.as_slice())?;
    output.put(": ")?;
    output.put(statement.rule.as_str())?;
    put_ins(output, statement)?;
    output.put_char('\n')
}

impl Written for Statement {
    ghost text = { λ statement. joined_text (statement_lines statement) };

    fn put(&self, output: &mut Output) -> Result<(), WriteError> {
        put_build_line(output, self)?;
        put_variables(output, self.vars.as_slice())
    }

    fn least(&self) -> usize {
        let paths = least_of_all(self.outs.as_slice()).saturating_add(least_of_all(
            self.ins.as_slice(),
        ));
        paths.saturating_add(least_of_all(self.vars.as_slice()))
    }
}

#[tactic(auto, unfolding(crate::specs::Meaning::head_line))]
fn put_head(output: &mut Output) -> Result<(), WriteError>
    ensures { Puts (ended_line head_line) output.old output.new result }
{
    output.put("# build.ninja written by bpgen\n")
}

fn put_defaults(output: &mut Output, paths: &[Text]) -> Result<(), WriteError>
    ensures { Puts (joined_text (default_lines paths.now)) output.old output.new result }
{
    if paths.is_empty() {
        return Ok(());
    }
    output.put("default")?;
    put_all(output, paths)?;
    output.put_char('\n')
}

// What stands before the statements: the first line and the rules.
fn put_front(output: &mut Output, file: &NinjaFile) -> Result<(), WriteError>
    ensures { Puts (front_text file.now) output.old output.new result }
{
    put_head(output)?;
    put_all(output, file.rules.as_slice())
}

fn put_file(output: &mut Output, file: &NinjaFile) -> Result<(), WriteError>
    ensures { Puts (text_of file.now) output.old output.new result }
{
    put_front(output, file)?;
    put_all(output, file.statements.as_slice())?;
    put_defaults(output, file.defaults.as_slice())
}

// So many statements are measured before they are printed.
const MANY: usize = 1 << 20;

// Refuses a text that is too large for certain before memory is taken for it, where there are many statements.
fn check_size(f: &NinjaFile) -> Result<(), WriteError>
    ensures { IsErrOf result WriteError.TooLarge → LARGEST_OUTPUT < length (text_of f.now) }
{
    let statements = f.statements.as_slice();
    if statements.len() > MANY && least_of_all(statements) > LARGEST_OUTPUT {
        return Err(WriteError::TooLarge);
    }
    Ok(())
}

// How many bytes most statements take at most.
const USUAL: usize = 256;

/// The text of a file. Any file has one; Ninja reads back only that of a well-formed file as it was meant.
pub fn write(alloc: Global, f: &NinjaFile) -> Result<Vec<u8>, WriteError>
    ensures text { IfOk result (λ text. text.items ≡ text_of f.now) }
    ensures fits { IfOk result (λ text. length text.items ≤ LARGEST_OUTPUT) }
    ensures utf8 { IfOk result (λ text. IsUtf8 text.items) }
    ensures too_large { IsErrOf result WriteError.TooLarge → LARGEST_OUTPUT < length (text_of f.now) }
{
    check_size(f)?;
    let mut output = Output::new(alloc);
    output.make_room(f.statements.as_slice().len().saturating_mul(USUAL));
    put_file(&mut output, f)?;
    Ok(output.into_bytes())
}

/// The same, by as many workers. Where the text is long, each prints some of the statements.
pub fn write_in<R: Threads + Sync>(
    rt: &R,
    alloc: Global,
    f: &NinjaFile,
    workers: u32,
) -> Result<Vec<u8>, WriteError>
    requires workers { (1 ≤ workers) × (workers ≤ MOST_WORKERS) }
    ensures text { IfOk result (λ text. text.items ≡ text_of f.now) }
    ensures fits { IfOk result (λ text. length text.items ≤ LARGEST_OUTPUT) }
    ensures utf8 { IfOk result (λ text. IsUtf8 text.items) }
    ensures too_large { IsErrOf result WriteError.TooLarge → LARGEST_OUTPUT < length (text_of f.now) }
{
    if workers == 1 {
        return write(alloc, f);
    }
    check_size(f)?;
    let weights = weights(rt, alloc, f.statements.as_slice(), workers)?;
    let all = Part::new(f.statements.as_slice(), weights.as_slice());
    let mut front = Output::new(alloc);
    put_front(&mut front, f)?;
    let mut output = print_behind(rt, alloc, front.as_str(), &all, all.workers(workers))?;
    put_defaults(&mut output, f.defaults.as_slice())?;
    Ok(output.into_bytes())
}

ghost use Rattle.std.specs.Prelude.{◌≡◌, [], ◌∷◌, ◌++◌, IfOk, OnOk, codes};
ghost use Rattle.build_parts.specs.Head.{literal_pieces, reference, command_bindings, compiler};
ghost use Rattle.build_parts.specs.Head.{compile_command, dependency_bindings};
ghost use Rattle.build_parts.specs.Head.{compile_rule, assemble_rule, archive_rule, link_rule, head_rules};

use bp_faults::{OutOfMemory, Seq, Text};
use ninja_file::{NinjaRule, Piece};
use std::alloc::Global;

// The beginning of a value, up to its first variable.
fn begin(alloc: Global, text: &str) -> Result<Vec<Piece>, OutOfMemory>
    ensures { IfOk result (λ pieces. pieces.items ≡ literal_pieces text.now) }
{
    let mut pieces = Vec::new(alloc);
    if !text.is_empty() {
        pieces.push(Piece::Lit(Text::from_str(alloc, text)?))?;
    }
    Ok(pieces)
}

// One more variable, and the text behind it.
fn refer(
    alloc: Global,
    pieces: &mut Vec<Piece>,
    variable: &str,
    behind: &str,
) -> Result<(), OutOfMemory>
    ensures { OnOk result (pieces.new.items ≡ pieces.old.items ++ reference (variable.now, behind.now)) }
{
    pieces.push(Piece::Var(Text::from_str(alloc, variable)?))?;
    if !behind.is_empty() {
        pieces.push(Piece::Lit(Text::from_str(alloc, behind)?))?;
    }
    Ok(())
}

// The variables of all commands that compile: `PROGRAM ${target} ${cflags} ${includes}`.
fn compiler(alloc: Global, program: &str, behind: &str) -> Result<Vec<Piece>, OutOfMemory>
    ensures { IfOk result (λ pieces. pieces.items ≡ compiler program.now behind.now) }
{
    let mut pieces = begin(alloc, program)?;
    refer(alloc, &mut pieces, "target", " ")?;
    refer(alloc, &mut pieces, "cflags", " ")?;
    refer(alloc, &mut pieces, "includes", behind)?;
    Ok(pieces)
}

fn bind(
    alloc: Global,
    bindings: &mut Vec<(Text, Seq<Piece>)>,
    key: &str,
    pieces: Vec<Piece>,
) -> Result<(), OutOfMemory>
    ensures { OnOk result (bindings.new.items ≡ bindings.old.items ++ (key.now, pieces.items) ∷ []) }
{
    bindings.push((Text::from_str(alloc, key)?, Seq::new(pieces)))?;
    Ok(())
}

// The command of a rule, and its description, `WORD ${out}`.
fn commanded(
    alloc: Global,
    command: Vec<Piece>,
    word: &str,
) -> Result<Vec<(Text, Seq<Piece>)>, OutOfMemory>
    ensures { IfOk result (λ bindings. bindings.items ≡ command_bindings command.items word.now) }
{
    let mut bindings = Vec::new(alloc);
    bind(alloc, &mut bindings, "command", command)?;
    let mut description = begin(alloc, word)?;
    refer(alloc, &mut description, "out", "")?;
    bind(alloc, &mut bindings, "description", description)?;
    Ok(bindings)
}

#[tactic(auto, unfolding(crate::specs::Head::compile_command))]
fn compile_command(alloc: Global, program: &str) -> Result<Vec<Piece>, OutOfMemory>
    ensures { IfOk result (λ pieces. pieces.items ≡ compile_command program.now) }
{
    let mut command = compiler(alloc, program, " -MD -MF ")?;
    refer(alloc, &mut command, "out", ".d -c ")?;
    refer(alloc, &mut command, "in", " -o ")?;
    refer(alloc, &mut command, "out", "")?;
    Ok(command)
}

// The compiler writes what a source includes beside the object, in gcc's form.
#[tactic(auto, unfolding(crate::specs::Head::dependency_bindings))]
fn bind_dependencies(
    alloc: Global,
    bindings: &mut Vec<(Text, Seq<Piece>)>,
) -> Result<(), OutOfMemory>
    ensures { OnOk result (bindings.new.items ≡ bindings.old.items ++ dependency_bindings) }
{
    let mut depfile = begin(alloc, "")?;
    refer(alloc, &mut depfile, "out", ".d")?;
    bind(alloc, bindings, "depfile", depfile)?;
    let deps = begin(alloc, "gcc")?;
    bind(alloc, bindings, "deps", deps)
}

fn compile_rule(
    alloc: Global,
    name: &str,
    program: &str,
    word: &str,
) -> Result<NinjaRule, OutOfMemory>
    ensures { IfOk result (λ rule. rule ≡ compile_rule name.now program.now word.now) }
{
    let command = compile_command(alloc, program)?;
    let mut bindings = commanded(alloc, command, word)?;
    bind_dependencies(alloc, &mut bindings)?;
    Ok(NinjaRule {
        name: Text::from_str(alloc, name)?,
        bindings: Seq::new(bindings),
    })
}

#[tactic(auto, unfolding(crate::specs::Head::assemble_rule))]
fn assemble_rule(alloc: Global) -> Result<NinjaRule, OutOfMemory>
    ensures { IfOk result (λ rule. rule ≡ assemble_rule) }
{
    let mut command = compiler(alloc, "clang ", " -c ")?;
    refer(alloc, &mut command, "in", " -o ")?;
    refer(alloc, &mut command, "out", "")?;
    Ok(NinjaRule {
        name: Text::from_str(alloc, "as")?,
        bindings: Seq::new(commanded(alloc, command, "AS ")?),
    })
}

#[tactic(auto, unfolding(crate::specs::Head::archive_rule))]
fn archive_rule(alloc: Global) -> Result<NinjaRule, OutOfMemory>
    ensures { IfOk result (λ rule. rule ≡ archive_rule) }
{
    let mut command = begin(alloc, "rm -f ")?;
    refer(alloc, &mut command, "out", " && llvm-ar rcs ")?;
    refer(alloc, &mut command, "out", " ")?;
    refer(alloc, &mut command, "in", "")?;
    Ok(NinjaRule {
        name: Text::from_str(alloc, "ar")?,
        bindings: Seq::new(commanded(alloc, command, "AR ")?),
    })
}

#[tactic(auto, unfolding(crate::specs::Head::link_rule))]
fn link_rule(alloc: Global, name: &str, program: &str, word: &str) -> Result<NinjaRule, OutOfMemory>
    ensures { IfOk result (λ rule. rule ≡ link_rule name.now program.now word.now) }
{
    let mut command = begin(alloc, program)?;
    refer(alloc, &mut command, "target", " ")?;
    refer(alloc, &mut command, "in", " ")?;
    refer(alloc, &mut command, "ldflags", " -o ")?;
    refer(alloc, &mut command, "out", "")?;
    Ok(NinjaRule {
        name: Text::from_str(alloc, name)?,
        bindings: Seq::new(commanded(alloc, command, word)?),
    })
}

/// The rules that every written file begins with.
pub fn head_rules(alloc: Global) -> Result<Vec<NinjaRule>, OutOfMemory>
    ensures { IfOk result (λ rules. rules.items ≡ head_rules) }
{
    let rules = [
        compile_rule(alloc, "cc", "clang ", "CC ")?,
        compile_rule(alloc, "cxx", "clang++ ", "CXX ")?,
        assemble_rule(alloc)?,
        archive_rule(alloc)?,
        link_rule(alloc, "link", "clang++ ", "LINK ")?,
        link_rule(alloc, "solink", "clang++ -shared ", "SOLINK ")?,
    ];
    Ok(Vec::from_array(alloc, rules)?)
}

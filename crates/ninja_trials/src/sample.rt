use bp_faults::{OutOfMemory, Seq, Text, copy_all};
use ninja_text::{NinjaFile, NinjaRule, Piece, Statement, WriteError, write};
use std::alloc::Global;

fn texts(alloc: Global, words: &[&str]) -> Result<Seq<Text>, OutOfMemory> {
    let mut texts = Vec::new(alloc);
    for word in words {
        texts.push(Text::from_str(alloc, word)?)?;
    }
    Ok(Seq::new(texts))
}

fn variables(alloc: Global, pairs: &[(&str, &str)]) -> Result<Seq<(Text, Text)>, OutOfMemory> {
    let mut variables = Vec::new(alloc);
    for (key, value) in pairs {
        variables.push((Text::from_str(alloc, key)?, Text::from_str(alloc, value)?))?;
    }
    Ok(Seq::new(variables))
}

// Literal text and variables by turns: of each pair the text comes first, where it isn't empty.
fn pieces(alloc: Global, pairs: &[(&str, &str)]) -> Result<Seq<Piece>, OutOfMemory> {
    let mut pieces = Vec::new(alloc);
    for (literal, variable) in pairs {
        if !literal.is_empty() {
            pieces.push(Piece::Lit(Text::from_str(alloc, literal)?))?;
        }
        pieces.push(Piece::Var(Text::from_str(alloc, variable)?))?;
    }
    Ok(Seq::new(pieces))
}

const COMMAND: [(&str, &str); 4] = [
    ("  say $5: '$$' ", "words"),
    ("", "more"),
    ("$", "in"),
    (" > ", "out"),
];

fn rule(alloc: Global) -> Result<NinjaRule, OutOfMemory> {
    let mut bindings = Vec::new(alloc);
    bindings.push((Text::from_str(alloc, "command")?, pieces(alloc, &COMMAND)?))?;
    Ok(NinjaRule {
        name: Text::from_str(alloc, "say_1")?,
        bindings: Seq::new(bindings),
    })
}

// Paths and values that hold all that is escaped.
fn hard(alloc: Global) -> Result<Statement, OutOfMemory> {
    let ins = ["a b:$.c", " leading", "trailing ", "$$$ $:$ :", "=#ü"];
    let vars = [
        ("words", "  -X:  two $HOME ${in} $"),
        ("more", ":# | || a=b "),
    ];
    Ok(Statement {
        outs: texts(alloc, &["out/a b", "out/c:d$", "$out: e"])?,
        rule: Text::from_str(alloc, "say_1")?,
        ins: texts(alloc, &ins)?,
        implicit: texts(alloc, &["in c/i j.h", ":"])?,
        order_only: texts(alloc, &["$in", "d:e f"])?,
        vars: variables(alloc, &vars)?,
    })
}

fn plain(alloc: Global, out: &str, rule: &str, ins: Seq<Text>) -> Result<Statement, OutOfMemory> {
    Ok(Statement {
        outs: texts(alloc, &[out])?,
        rule: Text::from_str(alloc, rule)?,
        ins,
        implicit: texts(alloc, &[])?,
        order_only: texts(alloc, &[])?,
        vars: variables(alloc, &[])?,
    })
}

fn long_list(alloc: Global) -> Result<Seq<Text>, OutOfMemory> {
    let mut texts = Vec::new(alloc);
    for n in 0..500u32 {
        texts.push(Text::new(format!(in alloc; "src {n}/file:${n}.c")?))?;
    }
    Ok(Seq::new(texts))
}

fn file(alloc: Global) -> Result<NinjaFile, OutOfMemory> {
    let mut rules = Vec::new(alloc);
    rules.push(rule(alloc)?)?;
    let all = texts(alloc, &["out/a b", "out/long"])?;
    let mut statements = Vec::new(alloc);
    statements.push(hard(alloc)?)?;
    statements.push(plain(alloc, "out/long", "say_1", long_list(alloc)?)?)?;
    statements.push(plain(alloc, "out/all of it", "phony", all)?)?;
    Ok(NinjaFile {
        rules: Seq::new(rules),
        statements: Seq::new(copy_all(alloc, statements.as_slice())?),
        defaults: texts(alloc, &["out/all of it"])?,
    })
}

/// The text of a file with hard paths and values.
pub fn sample_text(alloc: Global) -> Result<Vec<u8>, WriteError> {
    match file(alloc) {
        Ok(file) => write(alloc, &file),
        Err(OutOfMemory) => Err(WriteError::OutOfMemory),
    }
}

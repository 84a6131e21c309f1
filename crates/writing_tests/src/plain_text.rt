//! Statements as they are written, without escapes.
use bp_faults::{OutOfMemory, Text};
use ninja_file::Statement;
use std::alloc::Global;

fn add_words(out: &mut String, mark: &str, words: &[Text]) -> Result<(), OutOfMemory> {
    if words.is_empty() {
        return Ok(());
    }
    out.push_str(mark)?;
    for word in words {
        out.push_str(" ")?;
        out.push_str(word.as_str())?;
    }
    Ok(())
}

fn add_variable(out: &mut String, key: &str, value: &str) -> Result<(), OutOfMemory> {
    out.push_str("\n  ")?;
    out.push_str(key)?;
    out.push_str(" = ")?;
    out.push_str(value)?;
    Ok(())
}

/// A statement as it is written, without escapes.
pub fn add_statement(out: &mut String, statement: &Statement) -> Result<(), OutOfMemory> {
    add_words(out, "build", statement.outs.as_slice())?;
    out.push_str(": ")?;
    out.push_str(statement.rule.as_str())?;
    add_words(out, "", statement.ins.as_slice())?;
    add_words(out, " |", statement.implicit.as_slice())?;
    add_words(out, " ||", statement.order_only.as_slice())?;
    for (key, value) in statement.vars.as_slice() {
        add_variable(out, key.as_str(), value.as_str())?;
    }
    out.push_str("\n")?;
    Ok(())
}

pub fn text_of(alloc: Global, statements: &[Statement]) -> Result<String, OutOfMemory> {
    let mut text = String::new(alloc);
    for statement in statements {
        add_statement(&mut text, statement)?;
    }
    Ok(text)
}

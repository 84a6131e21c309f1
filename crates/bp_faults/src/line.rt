ghost use Rattle.std.specs.Prelude.{◌≡◌, ◌++◌, List, ℕ, IfOk, string_bytes, codes, map, take};
ghost use Rattle.bp_faults.specs.Line.{line_of, head_of, subject_tail, what_of, chain_of, after_arrows};
ghost use Rattle.bp_faults.specs.Line.{shown_char, shown_text, path_at};

use crate::{Fault, FaultKind, OutOfMemory, Place, Text, is_control};
use std::alloc::{AllocError, Global};

fn shown_char(c: char) -> char
    ensures { result ≡ shown_char c }
{
    if is_control(c) { '?' } else { c }
}

// The first 80 characters, control characters as question marks.
fn shown_subject(alloc: Global, text: &str) -> Result<String, AllocError>
    ensures { IfOk result (λ shown_char. string_bytes shown_char ≡ shown_text text.now) }
{
    text.chars().take(80).map(|c| shown_char(c)).collect(alloc)
}

fn path_of(files: &[Text], file: u32) -> &str
    ensures { result.now ≡ path_at files.now file }
{
    match files.get(file as usize) {
        Some(path) => path.as_str(),
        None => "",
    }
}

// The labels of a cycle, joined by arrows.
fn joined(alloc: Global, chain: &[Text]) -> Result<String, OutOfMemory>
    ensures { IfOk result (λ text. string_bytes text ≡ chain_of chain.now) }
{
    let mut text = String::new(alloc);
    if let [first, rest @ ..] = chain {
        text.push_str(first.as_str())?;
        for name in rest {
            text.push_str(" -> ")?;
            text.push_str(name.as_str())?;
        }
    }
    Ok(text)
}

fn head(alloc: Global, path: &str, at: Place, kind: FaultKind) -> Result<String, OutOfMemory>
    ensures { IfOk result (λ head. string_bytes head ≡ head_of path.now at kind) }
{
    let number = kind.number();
    let text = kind.text();
    let line = at.line;
    let col = at.col;
    let head = format!(in alloc; "{path}:{line}:{col}: error {number}: {text}")?;
    Ok(head)
}

fn what(alloc: Global, fault: &Fault) -> Result<String, OutOfMemory>
    ensures { IfOk result (λ what. string_bytes what ≡ what_of fault.now.kind fault.now.subject fault.now.chain) }
{
    match fault.kind {
        FaultKind::Cycle => joined(alloc, fault.chain.as_slice()),
        _ => Ok(shown_subject(alloc, fault.subject.as_str())?),
    }
}

/// The line that a fault is printed as, with LF. `files` has the paths by their file numbers.
///
/// The subject is printed up to its 80th character, and the chain of a cycle whole.
pub fn fault_line(alloc: Global, fault: &Fault, files: &[Text]) -> Result<String, OutOfMemory>
    ensures { IfOk result (λ line. string_bytes line ≡ line_of fault.now files.now) }
{
    let mut line = head(alloc, path_of(files, fault.at.file), fault.at, fault.kind)?;
    let what = what(alloc, fault)?;
    if !what.is_empty() {
        line.push_str(": ")?;
        line.push_str(what.as_str())?;
    }
    line.push_str("\n")?;
    Ok(line)
}

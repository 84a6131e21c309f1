ghost use Rattle.std.specs.Prelude.{◌≡◌, ◌++◌, IfOk, OnOk, string_bytes, option_map, replicate, take, chars, length};
ghost use Rattle.std.specs.Prelude.{slice_get, ◌==◌};
ghost use Rattle.std.specs.List.{slice_split, flat_map};
ghost use Rattle.fault_view.specs.Excerpts.{shown_here, width, under, caret_line, printed_line, as_text, line_at};
ghost use Rattle.fault_view.specs.Excerpts.{has_column, quoted_line, excerpt_of};

use bp_faults::{OutOfMemory, is_control};
use near_names::char_count;
use std::alloc::{AllocError, Global};
use unicode_width::UnicodeWidthChar;

fn shown_char(c: char) -> char
    ensures { result ≡ shown_here c }
{
    if is_control(c) && c != '\t' { '?' } else { c }
}

// How many columns a character takes in a terminal.
fn width(c: char) -> usize
    ensures { result ≡ width c }
{
    shown_char(c).width().unwrap_or(0)
}

// Puts so many spaces.
fn push_spaces(text: &mut String, count: usize) -> Result<(), OutOfMemory>
    ensures { OnOk result (string_bytes text.new ≡ string_bytes text.old ++ replicate count 32) }
{
    for n in 0..count {
        text.push(' ')?;
    }
    Ok(())
}

// Puts what stands under a character.
fn push_under(text: &mut String, c: char) -> Result<(), OutOfMemory>
    ensures { OnOk result (string_bytes text.new ≡ string_bytes text.old ++ under c) }
{
    if c == '\t' {
        text.push('\t')?;
        Ok(())
    } else {
        push_spaces(text, width(c))
    }
}

// The first characters of a line.
fn first_chars(alloc: Global, line: &str, count: usize) -> Result<Vec<char>, AllocError>
    ensures { IfOk result (λ cs. cs.items ≡ take count (chars line.now)) }
{
    line.chars().take(count).collect(alloc)
}

// What stands under some characters.
fn under(alloc: Global, before: &[char]) -> Result<String, OutOfMemory>
    ensures { IfOk result (λ text. string_bytes text ≡ flat_map under before.now) }
{
    let mut text = String::new(alloc);
    for c in before {
        push_under(&mut text, *c)?;
    }
    Ok(text)
}

/// A caret under a column of a line, which counts from 1. A tab stands under a tab.
pub fn caret_line(alloc: Global, line: &str, col: u32) -> Result<String, OutOfMemory>
    ensures { IfOk result (λ caret. string_bytes caret ≡ caret_line line.now col) }
{
    let before = first_chars(alloc, line, col.saturating_sub(1) as usize)?;
    let mut text = under(alloc, &before)?;
    text.push_str("^")?;
    Ok(text)
}

// A line as it is shown: tabs are kept, and other control characters are question marks.
fn shown_line(alloc: Global, line: &str) -> Result<String, AllocError>
    ensures { IfOk result (λ shown. string_bytes shown ≡ printed_line line.now) }
{
    line.chars().map(|c| shown_char(c)).collect(alloc)
}

/// The bytes as text, where they are UTF-8.
pub fn as_text(bytes: &[u8]) -> Option<&str>
    ensures { option_map (λ text. text.now) result ≡ as_text bytes.now }
{
    match str::from_utf8(bytes) {
        Ok(text) => Some(text),
        Err(_) => None,
    }
}

// A line of a file, whose lines count from 0 here.
fn piece_at(bytes: &[u8], at: usize) -> Option<&[u8]>
    ensures { option_map (λ line. line.now) result ≡ slice_get (slice_split (λ b. b == 10) bytes.now) at }
{
    bytes.split(|byte| *byte == b'\n').nth(at)
}

// The line of a file by its number, where the file has it and it is UTF-8.
fn line_at(bytes: &[u8], number: u32) -> Option<&str>
    ensures { option_map (λ line. line.now) result ≡ line_at bytes.now number }
{
    if number == 0 {
        return None;
    }
    match piece_at(bytes, number as usize - 1) {
        Some(line) => as_text(line),
        None => None,
    }
}

// Whether a line has a column. The place behind the line's last character is one.
fn has_column(line: &str, col: u32) -> bool
    ensures { result ≡ has_column line.now col }
{
    0 < col && col as usize - 1 <= char_count(line)
}

// A line with its number, and a caret under a column.
fn quoted(alloc: Global, line: &str, number: u32, col: u32) -> Result<String, OutOfMemory>
    ensures { IfOk result (λ text. string_bytes text ≡ quoted_line line.now number col) }
{
    let number = format!(in alloc; "{number}")?;
    let mut margin = String::new(alloc);
    push_spaces(&mut margin, number.len())?;
    let shown = shown_line(alloc, line)?;
    let caret = caret_line(alloc, line, col)?;
    Ok(format!(in alloc; "{number} | {shown}\n{margin} | {caret}\n")?)
}

/// The line of a file by its number, and a caret under a column, where the file has that place.
pub fn excerpt(
    alloc: Global,
    bytes: &[u8],
    number: u32,
    col: u32,
) -> Result<Option<String>, OutOfMemory>
    ensures { IfOk result (λ shown. option_map string_bytes shown ≡ excerpt_of bytes.now number col) }
{
    match line_at(bytes, number) {
        Some(line) if has_column(line, col) => Ok(Some(quoted(alloc, line, number, col)?)),
        _ => Ok(None),
    }
}

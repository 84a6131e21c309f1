ghost use Rattle.std.specs.Prelude.{◌≡◌, ◌<◌, ◌+◌, ◌-◌, true, false, IfOk, MatchOption, map, length, drop};
ghost use Rattle.std.specs.Prelude.{get_or, [], ◌^◌, Some, None};
ghost use Rattle.std.specs.Str.{is_utf8};
ghost use Rattle.ninja_lines.specs.Meaning.{lines, joined_lines, dangles, without_last};
ghost use Rattle.ninja_lines.specs.Inside.{line_length};
ghost use Rattle.ninja_lines.specs.Shown.{shown_line, texts};
ghost use Rattle.ninja_lines.specs.Inside.{IsNextLine};

use crate::line::{Line, LineText};
use crate::spaces::drop_spaces;
use bp_faults::{OutOfMemory, Text};
use std::alloc::Global;

fn line_length(bytes: &[u8]) -> usize
    ensures { result ≡ line_length bytes.now }
{
    for (index, byte) in bytes.iter().enumerate() {
        if *byte == b'\n' {
            return index;
        }
    }
    bytes.len()
}

// What stands behind a line and its LF.
fn behind_line(bytes: &[u8], end: usize) -> &[u8]
    ensures { result.now ≡ drop (end + 1) bytes.now }
{
    if end < bytes.len() {
        &bytes[end + 1..]
    } else {
        &[]
    }
}

// The lines of a text, as they stand.
fn lines<'a>(alloc: Global, text: &'a [u8]) -> Result<Vec<&'a [u8]>, OutOfMemory>
    ensures { IfOk result (λ found. texts found.items ≡ lines text.now) }
{
    let mut found = Vec::new(alloc);
    let mut rest = text;
    while !rest.is_empty() {
        let end = line_length(rest);
        found.push(&rest[..end])?;
        rest = behind_line(rest, end);
    }
    Ok(found)
}

/// Whether a dollar at the end of a text has nothing behind it.
pub fn dangles(text: &[u8]) -> bool
    ensures { result ≡ dangles false text.now }
{
    let mut behind = false;
    for byte in text {
        behind = !behind && *byte == b'$';
    }
    behind
}

fn utf8(bytes: &[u8]) -> Option<&str>
    ensures { MatchOption result (is_utf8 bytes.now ≡ false)
        (λ text. (is_utf8 bytes.now ≡ true) × (text.now ≡ bytes.now)) }
{
    match str::from_utf8(bytes) {
        Ok(text) => Some(text),
        Err(_) => None,
    }
}

// A text without the dollar at its end.
fn without_dollar(text: &str) -> &str
    requires { dangles false text.now ≡ true }
    ensures { result.now ≡ without_last text.now }
{
    &text[..text.len() - 1]
}

// A line that isn't UTF-8, by its index.
fn not_text<'a>(at: usize) -> Line<'a>
    requires { at + 1 < 2 ^ 32 }
    ensures { shown_line result ≡ record { number = at + 1; text = None } }
{
    Line {
        number: (at + 1) as u32,
        content: LineText::NotText,
    }
}

// A line as it stands.
fn whole_line(at: usize, text: &str) -> Line<'_>
    requires { at + 1 < 2 ^ 32 }
    ensures { shown_line result ≡ record { number = at + 1; text = Some text.now } }
{
    Line {
        number: (at + 1) as u32,
        content: LineText::Whole(text),
    }
}

fn joined_line<'a>(at: usize, text: Text) -> Line<'a>
    requires { at + 1 < 2 ^ 32 }
    ensures { shown_line result ≡ record { number = at + 1; text = Some text } }
{
    Line {
        number: (at + 1) as u32,
        content: LineText::Joined(text),
    }
}

// Joins a line that has a dollar at its end with the lines behind it.
fn join<'a>(
    alloc: Global,
    lines: &[&'a [u8]],
    first: usize,
    front: &str,
) -> Result<(Line<'a>, usize), OutOfMemory>
    requires within { first < length lines.now }
    requires few { length lines.now < 2 ^ 32 }
    requires line { front.now ≡ get_or (texts lines.now) first [] }
    requires utf8 { is_utf8 front.now ≡ true }
    requires dangles { dangles false front.now ≡ true }
    ensures { IfOk result (λ found. IsNextLine lines.now first found.0 found.1) }
{
    let mut text = Text::from_str(alloc, without_dollar(front))?;
    let mut at = first + 1;
    while at < lines.len() {
        let Some(line) = utf8(lines[at]) else {
            return Ok((not_text(at), at + 1));
        };
        let rest = drop_spaces(line);
        if !dangles(rest.as_bytes()) {
            text.push_str(rest)?;
            return Ok((joined_line(first, text), at + 1));
        }
        text.push_str(without_dollar(rest))?;
        at += 1;
    }
    text.push_str("$")?;
    Ok((joined_line(first, text), at))
}

// The joined line that begins at a line, and the index behind it.
fn next_line<'a>(
    alloc: Global,
    lines: &[&'a [u8]],
    at: usize,
) -> Result<(Line<'a>, usize), OutOfMemory>
    requires within { at < length lines.now }
    requires few { length lines.now < 2 ^ 32 }
    ensures { IfOk result (λ found. IsNextLine lines.now at found.0 found.1) }
{
    let Some(line) = utf8(lines[at]) else {
        return Ok((not_text(at), at + 1));
    };
    if dangles(line.as_bytes()) {
        join(alloc, lines, at, line)
    } else {
        Ok((whole_line(at, line), at + 1))
    }
}

/// The joined lines of a text of fewer than 2^32 bytes.
pub fn joined<'a>(alloc: Global, text: &'a [u8]) -> Result<Vec<Line<'a>>, OutOfMemory>
    requires { length text.now < 2 ^ 32 }
    ensures { IfOk result (λ found. map shown_line found.items ≡ joined_lines text.now) }
{
    let listed = lines(alloc, text)?;
    let lines = listed.as_slice();
    let mut found = Vec::new(alloc);
    let mut at = 0;
    while at < lines.len() {
        let (line, next) = next_line(alloc, lines, at)?;
        found.push(line)?;
        at = next;
    }
    Ok(found)
}

ghost use Rattle.std.specs.Prelude.{◌≡◌, ◌<◌, ◌^◌, ◌++◌, [], ℕ, List, None, Some, IfOk, IsTrue, MatchResult};
ghost use Rattle.std.specs.Prelude.{map, not, length};
ghost use Rattle.std.specs.List.{flat_map};
ghost use Rattle.ninja_lines.specs.Shown.{shown_line};
ghost use Rattle.bp_names.specs.Meaning.{IsSetOf};
ghost use Rattle.ninja_read.specs.Inside.{shown_book};
ghost use Rattle.ninja_read.specs.Book.{no_book};
ghost use Rattle.ninja_read.specs.Meaning.{read_lines, reading, or_line, repeated_out, repeats, stray};
ghost use Rattle.ninja_read.specs.Meaning.{Reads};

use crate::book::Book;
use bp_faults::{OutOfMemory, Text};
use bp_names::NameSet;
use ninja_file::{NinjaFile, Statement};
use ninja_lines::{Line, joined};
use std::alloc::Global;
use thiserror::Error;

#[derive(Clone, Copy, Debug, Error, PartialEq, Eq)]
pub enum NinjaError {
    /// The first line that is refused. Lines are counted from 1.
    #[error("line {0} is refused")]
    BadLine(u32),
    #[error("out of memory")]
    OutOfMemory,
}

impl From<OutOfMemory> for NinjaError {
    ghost use Rattle.std.specs.Prelude.{◌≡◌};
    ghost use Rattle.ninja_read.specs.declared.reader.NinjaError.TheVariants.{OutOfMemory as Want};

    ghost from_gives = { λ _ error. error ≡ Want };

    fn from(_: OutOfMemory) -> Self {
        NinjaError::OutOfMemory
    }
}

// The book of the lines up to the first that is refused, and that line.
fn read_lines<'a>(
    alloc: Global,
    lines: &'a [Line<'_>],
) -> Result<(Book<'a>, Option<u32>), OutOfMemory>
    ensures { IfOk result (λ read. (shown_book read.0, read.1) ≡ read_lines no_book (map shown_line lines.now)) }
{
    let mut book = Book::new(alloc);
    for (index, line) in lines.iter().enumerate() {
        if !book.take(alloc, line, &lines[index + 1..])? {
            return Ok((book, Some(line.number)));
        }
    }
    Ok((book, None))
}

// Adds the outs of a statement, where none was named before.
fn add_outs<'a>(seen: &mut NameSet<'a>, outs: &'a [Text]) -> Result<bool, OutOfMemory>
    ensures new { (texts : List (List ℕ)) → IsSetOf texts seen.old
        → IfOk result (λ new. new ≡ not (repeats texts outs.now)) }
    ensures seen { (texts : List (List ℕ)) → IsSetOf texts seen.old
        → IfOk result (λ new. IsTrue new → IsSetOf (texts ++ outs.now) seen.new) }
{
    for out in outs {
        if !seen.learn(out.as_str())? {
            return Ok(false);
        }
    }
    Ok(true)
}

// The outs of all statements, or the line of the first that names one again.
fn outs_of<'a>(
    alloc: Global,
    statements: &'a [(u32, Statement)],
) -> Result<Result<NameSet<'a>, u32>, OutOfMemory>
    ensures { IfOk result (λ found. MatchResult found
        (λ outs. (repeated_out [] statements.now ≡ None) × IsSetOf (flat_map (λ s. s.1.outs) statements.now) outs)
        (λ line. repeated_out [] statements.now ≡ Some line)) }
{
    let mut seen = NameSet::new(alloc);
    for (number, statement) in statements {
        if !add_outs(&mut seen, statement.outs.as_slice())? {
            return Ok(Err(*number));
        }
    }
    Ok(Ok(seen))
}

// The line of the first default that is no out.
fn stray(outs: &NameSet<'_>, defaults: &[(u32, Text)]) -> Option<u32>
    ensures { (texts : List (List ℕ)) → IsSetOf texts outs.now → result ≡ stray texts defaults.now }
{
    for (number, path) in defaults {
        if !outs.knows(path.as_str()) {
            return Some(*number);
        }
    }
    None
}

// The line that is refused, if any, where reading stopped at a line or at the end.
fn refused(
    alloc: Global,
    statements: &[(u32, Statement)],
    defaults: &[(u32, Text)],
    stop: Option<u32>,
) -> Result<Option<u32>, OutOfMemory>
    ensures { IfOk result (λ line. line ≡ or_line (repeated_out [] statements.now)
        (or_line stop (stray (flat_map (λ s. s.1.outs) statements.now) defaults.now))) }
{
    match outs_of(alloc, statements)? {
        Err(line) => Ok(Some(line)),
        Ok(outs) => match stop {
            Some(line) => Ok(Some(line)),
            None => Ok(stray(&outs, defaults)),
        },
    }
}

/// The file that a text stands for. The time is near the length of the text.
pub fn read(alloc: Global, bytes: &[u8]) -> Result<NinjaFile, NinjaError>
    requires { length bytes.now < 2 ^ 32 }
    ensures { Reads result (reading bytes.now) }
{
    let lines = joined(alloc, bytes)?;
    let (mut book, stop) = read_lines(alloc, lines.as_slice())?;
    book.end(alloc)?;
    let refused = refused(
        alloc,
        book.statements.as_slice(),
        book.defaults.as_slice(),
        stop,
    )?;
    match refused {
        Some(line) => Err(NinjaError::BadLine(line)),
        None => {
            let file = book.into_file(alloc)?;
            Ok(file)
        }
    }
}

ghost use Rattle.std.specs.Prelude.{◌≡◌, ◌∷◌, ◌++◌, ◌||◌, ◌==◌};
ghost use Rattle.std.specs.List.{list_any, position};
ghost use Rattle.ninja_write.specs.Inside.{Puts};
ghost use Rattle.ninja_file.specs.Escapes.{is_escaped};
ghost use Rattle.ninja_write.specs.Escaped.{escaped_bytes};
ghost use Rattle.bp_faults.specs.Characters.{dollar};

use crate::output::{Output, WriteError};
use ninja_file::{Escape, is_escaped_byte};

// Whether one of three bytes is among others. No jump is between two bytes, so that the compiler can look at several
// at once.
fn has_one_of(bytes: &[u8], first: u8, second: u8, third: u8) -> bool
    ensures { result ≡ list_any (λ byte. byte == first || byte == second || byte == third) bytes.now }
{
    let mut found = false;
    for byte in bytes {
        found = found | (*byte == first) | (*byte == second) | (*byte == third);
    }
    found
}

// Whether a byte of a text is escaped.
fn has_escaped(escape: Escape, bytes: &[u8]) -> bool
    ensures { result ≡ list_any (is_escaped escape) bytes.now }
{
    match escape {
        Escape::Path => has_one_of(bytes, b'$', b' ', b':'),
        Escape::Value => has_one_of(bytes, b'$', b'$', b'$'),
    }
}

fn first_escaped(escape: Escape, bytes: &[u8]) -> Option<usize>
    ensures { result ≡ position (is_escaped escape) bytes.now }
{
    bytes.iter().position(|byte| is_escaped_byte(escape, *byte))
}

// Puts a run and, behind a dollar, what follows it.
fn put_run(output: &mut Output, run: &str, special: &str) -> Result<(), WriteError>
    ensures { Puts (run.now ++ (dollar ∷ special.now)) output.old output.new result }
{
    output.put(run)?;
    output.put_char('$')?;
    output.put(special)
}

// Puts a text with its escapes, and each run that has none at once.
fn put_runs(output: &mut Output, escape: Escape, text: &str) -> Result<(), WriteError>
    ensures { Puts (escaped_bytes escape text.now) output.old output.new result }
{
    let mut rest = text;
    while let Some(at) = first_escaped(escape, rest.as_bytes()) {
        let (run, tail) = rest.split_at(at);
        let (special, after) = tail.split_at(1);
        put_run(output, run, special)?;
        rest = after;
    }
    output.put(rest)
}

/// Puts a text with its escapes. Most texts have none.
pub fn put_escaped(output: &mut Output, escape: Escape, text: &str) -> Result<(), WriteError>
    ensures { Puts (escaped_bytes escape text.now) output.old output.new result }
{
    if has_escaped(escape, text.as_bytes()) {
        return put_runs(output, escape, text);
    }
    output.put(text)
}

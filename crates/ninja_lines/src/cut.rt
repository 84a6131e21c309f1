ghost use Rattle.std.specs.Prelude.{◌≡◌, ◌<◌, ◌≤◌, false, length, map, IfOk, take, drop, ◌+◌, IsUtf8};
ghost use Rattle.ninja_lines.specs.Cuts.{parts_between, words};
ghost use Rattle.ninja_lines.specs.Inside.{reach};

use bp_faults::OutOfMemory;
use std::alloc::Global;

// How far a text goes before the first byte `at` that no dollar takes with it.
fn reach(bytes: &[u8], at: u8) -> usize
    ensures reach { result ≡ reach at false bytes.now }
    ensures within { result ≤ length bytes.now }
{
    let mut behind = false;
    for (index, byte) in bytes.iter().enumerate() {
        if behind {
            behind = false;
        } else if *byte == b'$' {
            behind = true;
        } else if *byte == at {
            return index;
        }
    }
    bytes.len()
}

/// The parts of a text between the bytes `at`, an ASCII character other than `$`. Those that a dollar
/// takes with it cut nothing.
pub fn parts_at<'a>(alloc: Global, text: &'a str, at: u8) -> Result<Vec<&'a str>, OutOfMemory>
    requires { at < 128 }
    ensures { IfOk result (λ parts. map (λ part. part.now) parts.items ≡ parts_between at false text.now) }
{
    let mut parts = Vec::new(alloc);
    let mut rest = text;
    let mut end = reach(rest.as_bytes(), at);
    while end < rest.len() {
        parts.push(&rest[..end])?;
        rest = &rest[end + 1..];
        end = reach(rest.as_bytes(), at);
    }
    parts.push(rest)?;
    Ok(parts)
}

/// The words of a text: its parts between spaces, where several spaces count as one.
pub fn words<'a>(alloc: Global, text: &'a str) -> Result<Vec<&'a str>, OutOfMemory>
    ensures { IfOk result (λ found. map (λ word. word.now) found.items ≡ words text.now) }
{
    let listed = parts_at(alloc, text, b' ')?;
    let parts = listed.as_slice();
    let mut found = Vec::new(alloc);
    for part in parts {
        if !part.is_empty() {
            found.push(*part)?;
        }
    }
    Ok(found)
}

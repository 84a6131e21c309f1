ghost use Rattle.std.specs.Prelude.{◌≡◌, ℕ, ◌+◌, ◌≤◌, ◌<◌, ◌∷◌, Bool, List, length, IfOk};
ghost use Rattle.std.specs.List.{list_any};
ghost use Rattle.path_patterns.specs.Globs.{is_star, has_star, has_none, star, next, glob, fits, is_hidden, RowOf};

use bp_faults::OutOfMemory;
use std::alloc::Global;

/// Whether a component is hidden: it begins with a dot.
pub fn is_hidden(name: &str) -> bool
    ensures { result ≡ is_hidden name.now }
{
    matches!(name.as_bytes(), [b'.', ..])
}

/// Whether a text has a `*`.
pub fn has_star(text: &str) -> bool
    ensures { result ≡ has_star text.now }
{
    text.as_bytes().iter().any(|byte| *byte == b'*')
}

// A `*` passes more: where an end of the name passes, so do all that are longer.
fn pass_star(row: &mut [bool], name: &[u8])
    requires { length row.old ≡ length name.now + 1 }
    ensures { (passes : List ℕ → Bool) → RowOf passes name.now row.old → RowOf (star passes) name.now row.new }
{
    for i in (0..name.len()).rev() {
        row[i] = row[i] | row[i + 1];
    }
}

// A byte passes where it stands first, and what follows passed.
fn pass_byte(row: &mut [bool], name: &[u8], byte: u8)
    requires { length row.old ≡ length name.now + 1 }
    ensures { (passes : List ℕ → Bool) → RowOf passes name.now row.old → RowOf (next byte passes) name.now row.new }
{
    for i in 0..name.len() {
        row[i] = (name[i] == byte) & row[i + 1];
    }
    row[name.len()] = false;
}

// Nothing is left of the pattern: only the empty end passes.
fn pass_nothing(row: &mut [bool], name: &[u8])
    requires { length row.old ≡ length name.now + 1 }
    ensures { RowOf has_none name.now row.new }
{
    for i in 0..name.len() {
        row[i] = false;
    }
    row[name.len()] = true;
}

// One byte of the pattern before those that a row has passed.
fn pass_one(row: &mut [bool], name: &[u8], byte: u8)
    requires { length row.old ≡ length name.now + 1 }
    ensures { (rest : List ℕ) → RowOf (glob rest) name.now row.old → RowOf (glob (byte ∷ rest)) name.now row.new }
{
    if byte == b'*' {
        pass_star(row, name);
    } else {
        pass_byte(row, name, byte);
    }
}

// The row of a pattern, from its last byte to its first.
fn pass(row: &mut [bool], pattern: &[u8], name: &[u8])
    requires { length row.old ≡ length name.now + 1 }
    ensures { RowOf (glob pattern.now) name.now row.new }
{
    pass_nothing(row, name);
    for j in (0..pattern.len()).rev() {
        pass_one(row, name, pattern[j]);
    }
}

fn is_passed(row: &mut [bool], pattern: &[u8], name: &[u8]) -> bool
    requires { length row.old ≡ length name.now + 1 }
    ensures { result ≡ glob pattern.now name.now }
{
    pass(row, pattern, name);
    row[0]
}

/// Whether a name fits a pattern in which `*` stands for any bytes. It takes at most as many steps as the pattern's
/// length times the name's.
fn glob(alloc: Global, pattern: &[u8], name: &[u8]) -> Result<bool, OutOfMemory>
    ensures { IfOk result (λ passes. passes ≡ glob pattern.now name.now) }
{
    let mut row = vec![in alloc; false; name.len() + 1]?;
    Ok(is_passed(row.as_mut_slice(), pattern, name))
}

/// Whether a name fits a component of a pattern, of which only one that is hidden fits hidden names.
pub fn fits(alloc: Global, part: &str, name: &str) -> Result<bool, OutOfMemory>
    ensures { IfOk result (λ fits_it. fits_it ≡ fits part.now name.now) }
{
    if is_hidden(name) && !is_hidden(part) {
        return Ok(false);
    }
    glob(alloc, part.as_bytes(), name.as_bytes())
}

ghost use Rattle.std.specs.Prelude.{◌≡◌, ◌+◌, ◌++◌, ◌<◌, ℕ, List, IfOk, OnOk, drop, slice_index_or, length};
ghost use Rattle.path_patterns.specs.Parts.{goes_deep, skip_one, step_parts, step_rest, step_all, is_done, has_rest};
ghost use Rattle.path_patterns.specs.Rows.{rest_of, rests_of};

use crate::glob::{fits, is_hidden};
use crate::limits::MOST_SKIPPED;
use bp_faults::{OutOfMemory, Text};
use std::alloc::Global;

/// A place in a pattern that some names reach: its components from `at` on are left, and before them so many names may
/// still be skipped. A row is a list of places.
#[derive(Clone, Copy, Debug)]
pub struct Reached {
    pub at: usize,
    pub skips: u32,
}

/// Whether a component is `**`, and others follow it.
fn goes_deep(parts: &[Text], at: usize) -> bool
    requires { at < length parts.now }
    ensures { (d : List ℕ) → result ≡ goes_deep (slice_index_or parts.now at d) (drop (at + 1) parts.now) }
{
    at + 1 < parts.len() && parts[at].as_str() == "**"
}

/// Puts a place behind a name that is skipped, if it may be.
fn skip(row: &mut Vec<Reached>, from: Reached, name: &str) -> Result<(), OutOfMemory>
    ensures { OnOk result ((parts : List (List ℕ)) → rests_of parts row.new.items
        ≡ rests_of parts row.old.items ++ skip_one from.skips (drop from.at parts) name.now) }
{
    if from.skips > 0 && !is_hidden(name) {
        row.push(Reached {
            at: from.at,
            skips: from.skips - 1,
        })?;
    }
    Ok(())
}

/// Puts the places that a name reaches from a component on.
fn step_parts(
    alloc: Global,
    parts: &[Text],
    from: usize,
    name: &str,
    row: &mut Vec<Reached>,
) -> Result<(), OutOfMemory>
    ensures { OnOk result (rests_of parts.now row.new.items
        ≡ rests_of parts.now row.old.items ++ step_parts (drop from parts.now) name.now) }
{
    for at in from..parts.len() {
        if !goes_deep(parts, at) {
            if fits(alloc, parts[at].as_str(), name)? {
                row.push(Reached {
                    at: at + 1,
                    skips: 0,
                })?;
            }
            return Ok(());
        }
        let behind = Reached {
            at: at + 1,
            skips: MOST_SKIPPED,
        };
        skip(row, behind, name)?;
    }
    Ok(())
}

/// Puts the places that a name reaches from a place.
fn step(
    alloc: Global,
    parts: &[Text],
    from: Reached,
    name: &str,
    row: &mut Vec<Reached>,
) -> Result<(), OutOfMemory>
    ensures { OnOk result (rests_of parts.now row.new.items
        ≡ rests_of parts.now row.old.items ++ step_rest from.skips (drop from.at parts.now) name.now) }
{
    if from.at < parts.len() {
        skip(row, from, name)?;
        step_parts(alloc, parts, from.at, name, row)?;
    }
    Ok(())
}

/// The places that a name reaches from those of a row.
pub fn behind(
    alloc: Global,
    parts: &[Text],
    row: &[Reached],
    name: &str,
) -> Result<Vec<Reached>, OutOfMemory>
    ensures { IfOk result (λ next. rests_of parts.now next.items ≡ step_all (rests_of parts.now row.now) name.now) }
{
    let mut next = Vec::new(alloc);
    for from in row {
        step(alloc, parts, *from, name, &mut next)?;
    }
    Ok(next)
}

/// Whether a row has reached the pattern's end.
pub fn is_done(parts: &[Text], row: &[Reached]) -> bool
    ensures { result ≡ is_done (rests_of parts.now row.now) }
{
    for place in row {
        if place.at >= parts.len() {
            return true;
        }
    }
    false
}

/// Whether something of the pattern is left behind a row.
pub fn goes_on(parts: &[Text], row: &[Reached]) -> bool
    ensures { result ≡ has_rest (rests_of parts.now row.now) }
{
    for place in row {
        if place.at < parts.len() {
            return true;
        }
    }
    false
}

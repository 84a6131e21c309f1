ghost use Rattle.std.specs.Prelude.{◌≡◌, ◌↔◌, ◌<◌, ◌^◌, ℕ, length, Contains, Some, None, IfOk, MatchOption};
ghost use Rattle.graph_picture.specs.Growing.{Joins};
ghost use Rattle.graph_picture.specs.Lines.{IsGraph};
ghost use Rattle.graph_picture.specs.Reach.{AreMarks, IsOf};

use crate::Variant;
use crate::lists::{target_lists, turned_lists};
use crate::reach::mark_within;
use bp_faults::{OutOfMemory, Text};
use std::alloc::Global;

/// A module, and how many edges away from its variants a variant may be.
#[derive(Debug, Drop)]
pub struct Focus {
    pub module: Text,
    pub depth: u32,
}

/// The numbers of the variants of a module.
fn numbers_of(alloc: Global, variants: &[Variant], owner: &str) -> Result<Vec<u32>, OutOfMemory>
    requires { length variants.now < 2 ^ 32 }
    ensures { IfOk result (λ numbers. (n : ℕ) → Contains numbers.items n ↔ IsOf variants.now owner.now n) }
{
    let mut numbers = Vec::new(alloc);
    for (n, variant) in variants.iter().enumerate() {
        if variant.module.as_str() == owner {
            numbers.push(n as u32)?;
        }
    }
    Ok(numbers)
}

/// Sets the marks that others have.
fn join(marks: &mut [bool], others: &[bool])
    ensures { Joins others.now marks.old marks.new }
{
    for (n, mark) in marks.iter_mut().enumerate() {
        if others.get(n) == Some(&true) {
            *mark = true;
        }
    }
}

/// Marks the variants that a focus keeps, or answers none where no variant is of the module.
pub fn marks_of(
    alloc: Global,
    variants: &[Variant],
    focus: &Focus,
) -> Result<Option<Vec<bool>>, OutOfMemory>
    requires { IsGraph variants.now }
    ensures { IfOk result (λ marks. MatchOption marks ((n : ℕ) → IsOf variants.now focus.now.module n → ⊥)
        (λ marks. AreMarks variants.now (Some focus.now) marks.items)) }
{
    let starts = numbers_of(alloc, variants, focus.module.as_str())?;
    if starts.is_empty() {
        return Ok(None);
    }
    let ahead = target_lists(alloc, variants)?;
    let back = turned_lists(alloc, &ahead)?;
    let mut marks = mark_within(alloc, &ahead, &starts, focus.depth)?;
    let others = mark_within(alloc, &back, &starts, focus.depth)?;
    join(&mut marks, &others);
    Ok(Some(marks))
}

ghost use Rattle.std.specs.Prelude.{◌≡◌, ◌<◌, ◌≤◌, ℕ, true, IfOk};
ghost use Rattle.std.specs.List.{AllByRecursion};
ghost use Rattle.ready_counters.specs.Views.{tickets_for};
ghost use Rattle.visit_workers.specs.declared.made.Made.{Made};
ghost use Rattle.visit_workers.specs.Making.{pairs};

use crate::made::Made;
use bp_faults::OutOfMemory;
use std::alloc::Global;

/// Whether all marks are set.
fn are_set(marks: &[bool]) -> bool
    ensures { result ≡ true → AllByRecursion (λ mark. mark ≡ true) marks.now }
{
    for mark in marks {
        if !*mark {
            return false;
        }
    }
    true
}

/// Whether each of so many nodes was made.
pub fn is_each_made<O: Drop>(
    alloc: Global,
    count: u32,
    made: &[Made<O>],
) -> Result<bool, OutOfMemory>
    requires { AllByRecursion (λ (m : Made O). m.node.0 < count) made.now }
    ensures { IfOk result (λ each. each ≡ true → (n : ℕ) → n < count → 1 ≤ tickets_for n (pairs made.now)) }
{
    let mut marks = vec![in alloc; false; count as usize]?;
    for m in made {
        marks[m.node.0 as usize] = true;
    }
    Ok(are_set(&marks))
}

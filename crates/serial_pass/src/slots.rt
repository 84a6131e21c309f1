ghost use Rattle.std.specs.Prelude.{◌≡◌, map, IfOk, Some, None, IsSome, All, replicate, false};

use bp_faults::OutOfMemory;
use std::alloc::Global;

/// A slot for each node, still empty.
pub fn empty_slots<T: Drop>(alloc: Global, count: u32) -> Result<Vec<Option<T>>, OutOfMemory>
    ensures { IfOk result (λ slots. slots.items ≡ replicate count None) }
{
    let mut slots = Vec::with_capacity(alloc, count as usize)?;
    for _n in 0..count {
        slots.push(None)?;
    }
    Ok(slots)
}

/// That many marks, of which none is set.
pub fn no_marks(alloc: Global, count: usize) -> Result<Vec<bool>, OutOfMemory>
    ensures { IfOk result (λ marks. marks.items ≡ replicate count false) }
{
    let mut marks = Vec::with_capacity(alloc, count)?;
    for _slot in 0..count {
        marks.push(false)?;
    }
    Ok(marks)
}

/// What stands in the slots, where each is filled.
pub fn unwrapped<T: Drop>(alloc: Global, slots: Vec<Option<T>>) -> Result<Vec<T>, OutOfMemory>
    requires { All IsSome slots.items }
    ensures { IfOk result (λ values. map Some values.items ≡ slots.items) }
{
    let mut values = Vec::with_capacity(alloc, slots.len())?;
    for slot in slots {
        match slot {
            Some(value) => values.push(value)?,
            None => unreachable!(),
        }
    }
    Ok(values)
}

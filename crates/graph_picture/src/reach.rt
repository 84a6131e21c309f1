ghost use Rattle.std.specs.Prelude.{◌≡◌, ◌<◌, ℕ, [], length, Contains, slice_index_or, IfOk, OnOk};
ghost use Rattle.graph_picture.specs.Growing.{Grows, Has, IsNext, MarkWithin};

use bp_faults::{OutOfMemory, Seq};
use std::alloc::Global;

/// Marks a number and puts it in front, unless it is marked.
fn mark(marks: &mut [bool], front: &mut Vec<u32>, n: u32) -> Result<(), OutOfMemory>
    requires { n < length marks.old }
    ensures { OnOk result (Grows (λ m. n ≡ m) marks.old front.old.items marks.new front.new.items) }
{
    if !marks[n as usize] {
        marks[n as usize] = true;
        front.push(n)?;
    }
    Ok(())
}

/// Marks the numbers of a list.
fn mark_all(marks: &mut [bool], front: &mut Vec<u32>, list: &[u32]) -> Result<(), OutOfMemory>
    requires { (n : ℕ) → Contains list.now n → n < length marks.old }
    ensures { OnOk result (Grows (Contains list.now) marks.old front.old.items marks.new front.new.items) }
{
    for n in list {
        mark(marks, front, *n)?;
    }
    Ok(())
}

/// The list of a number, and the empty one beyond the lists.
fn list_of(lists: &[Seq<u32>], n: u32) -> &[u32]
    ensures { result.now ≡ slice_index_or lists.now n [] }
{
    match lists.get(n as usize) {
        Some(list) => list.as_slice(),
        None => &[],
    }
}

/// Marks what is next to the numbers in front, and says what is new.
fn next_front(
    alloc: Global,
    lists: &[Seq<u32>],
    front: &[u32],
    marks: &mut [bool],
) -> Result<Vec<u32>, OutOfMemory>
    requires { (n m : ℕ) → Has lists.now n m → m < length marks.old }
    ensures { IfOk result (λ next. Grows (IsNext lists.now front.now) marks.old [] marks.new next.items) }
{
    let mut next = Vec::new(alloc);
    for n in front {
        mark_all(marks, &mut next, list_of(lists, *n))?;
    }
    Ok(next)
}

/// Marks what is within so many steps of some starts, level by level.
pub fn mark_within(
    alloc: Global,
    lists: &[Seq<u32>],
    starts: &[u32],
    depth: u32,
) -> Result<Vec<bool>, OutOfMemory>
    requires steps { (n m : ℕ) → Has lists.now n m → m < length lists.now }
    requires starts { (n : ℕ) → Contains starts.now n → n < length lists.now }
    ensures { IfOk result (λ marks. MarkWithin lists.now starts.now depth marks.items) }
{
    let mut marks = vec![in alloc; false; lists.len()]?;
    let mut front = Vec::new(alloc);
    mark_all(&mut marks, &mut front, starts)?;
    for level in 0..depth {
        if front.is_empty() {
            return Ok(marks);
        }
        front = next_front(alloc, lists, &front, &mut marks)?;
    }
    Ok(marks)
}

ghost use Rattle.std.specs.Prelude.{◌≡◌, ◌<◌, ◌^◌, ℕ, length, map, Contains, IfOk, OnOk};
ghost use Rattle.graph_picture.specs.Growing.{AreEmpty, AreTurned, Has, target, targets_of, PutsBack};

use crate::{Arrow, Variant};
use bp_faults::{OutOfMemory, Seq};
use std::alloc::Global;

/// The targets of some edges.
fn targets(alloc: Global, edges: &[Arrow]) -> Result<Seq<u32>, OutOfMemory>
    ensures { IfOk result (λ list. list ≡ map target edges.now) }
{
    let mut list = Vec::new(alloc);
    for arrow in edges {
        list.push(arrow.to)?;
    }
    Ok(Seq::new(list))
}

/// For each variant the targets of its edges.
pub fn target_lists(alloc: Global, variants: &[Variant]) -> Result<Vec<Seq<u32>>, OutOfMemory>
    ensures { IfOk result (λ lists. lists.items ≡ map targets_of variants.now) }
{
    let mut lists = Vec::new(alloc);
    for variant in variants {
        lists.push(targets(alloc, variant.edges.as_slice())?)?;
    }
    Ok(lists)
}

fn empty_lists(alloc: Global, count: usize) -> Result<Vec<Seq<u32>>, OutOfMemory>
    ensures { IfOk result (λ lists. AreEmpty count lists.items) }
{
    let mut lists = Vec::new(alloc);
    for _ in 0..count {
        lists.push(Seq::new(Vec::new(alloc)))?;
    }
    Ok(lists)
}

/// Puts a number into the list of each number of another list.
fn put_back(back: &mut [Seq<u32>], n: u32, list: &[u32]) -> Result<(), OutOfMemory>
    requires { (m : ℕ) → Contains list.now m → m < length back.old }
    ensures { OnOk result (PutsBack n (Contains list.now) back.old back.new) }
{
    for m in list {
        back[*m as usize].push(n)?;
    }
    Ok(())
}

/// The lists turned around.
pub fn turned_lists(alloc: Global, lists: &[Seq<u32>]) -> Result<Vec<Seq<u32>>, OutOfMemory>
    requires few { length lists.now < 2 ^ 32 }
    requires steps { (n m : ℕ) → Has lists.now n m → m < length lists.now }
    ensures { IfOk result (λ back. AreTurned lists.now back.items) }
{
    let mut back = empty_lists(alloc, lists.len())?;
    for (n, list) in lists.iter().enumerate() {
        put_back(&mut back, n as u32, list.as_slice())?;
    }
    Ok(back)
}

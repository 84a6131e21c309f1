ghost use Rattle.std.specs.Prelude.{◌≡◌, ◌<◌, ◌^◌, [], length, IfOk, IfSome, OnOk};
ghost use Rattle.graph_picture.specs.Drawing.{clusters_behind, module_name_at};
ghost use Rattle.graph_picture.specs.Grouping.{PutsNumber};

use crate::Variant;
use bp_faults::{OutOfMemory, Seq};
use bp_names::NameTable;
use bp_names::laws::tables_grow_with_lists;
use std::alloc::Global;

/// The variants of one module, by their numbers.
#[derive(Debug, Drop)]
pub struct Cluster {
    pub first: u32,
    pub others: Seq<u32>,
}

/// The name of the module of a variant, and the empty one beyond the variants.
pub fn module_at(variants: &[Variant], n: u32) -> &str
    ensures { result.now ≡ module_name_at variants.now n }
{
    match variants.get(n as usize) {
        Some(variant) => variant.module.as_str(),
        None => "",
    }
}

/// Puts a variant into a cluster that is there, or into a new one.
fn put_number(
    alloc: Global,
    clusters: &mut Vec<Cluster>,
    known: Option<u32>,
    n: u32,
) -> Result<(), OutOfMemory>
    requires { IfSome known (λ m. m < length clusters.old.items) }
    ensures { OnOk result (PutsNumber n clusters.old.items known clusters.new.items) }
{
    match known {
        Some(m) => clusters[m as usize].others.push(n),
        None => {
            clusters.push(Cluster {
                first: n,
                others: Seq::new(Vec::new(alloc)),
            })?;
            Ok(())
        }
    }
}

/// The clusters of some variants, by module in the order in which the modules are met.
pub fn clusters_of(
    alloc: Global,
    variants: &[Variant],
    numbers: &[u32],
) -> Result<Vec<Cluster>, OutOfMemory>
    requires { length numbers.now < 2 ^ 32 }
    ensures { IfOk result (λ clusters. clusters.items ≡ clusters_behind variants.now [] numbers.now) }
{
    // A law: the table of the names grows with their list.
    tables_grow_with_lists();
    let mut table = NameTable::new(alloc);
    let mut clusters = Vec::new(alloc);
    for n in numbers {
        let known = table.learn(module_at(variants, *n), clusters.len() as u32)?;
        put_number(alloc, &mut clusters, known, *n)?;
    }
    Ok(clusters)
}

ghost use Rattle.std.specs.Prelude.{◌<◌, ◌^◌, IfOk, length};
ghost use Rattle.linkage_mutator.specs.Plugins.{IsNameTable};

use bp_faults::OutOfMemory;
use bp_names::laws::tables_grow_with_lists;
use bp_props::Module;
use name_index::NameIndex;
use std::alloc::Global;

/// The number of the first module of each name.
pub fn module_names<'a>(alloc: Global, mods: &'a [Module]) -> Result<NameIndex<'a>, OutOfMemory>
    requires { length mods.now < 2 ^ 32 }
    ensures { IfOk result (λ table. IsNameTable mods.now table) }
{
    tables_grow_with_lists();
    let mut table = NameIndex::new(alloc);
    for (number, item) in mods.iter().enumerate() {
        table.learn(item.name.as_str(), number as u32)?;
    }
    Ok(table)
}

use bp_faults::OutOfMemory;
use module_graph::Graph;
use module_rules::Record;
use ninja_file::NinjaFile;
use std::alloc::Global;

/// What is left of the passes: the records of the graph after all mutators, and the file for Ninja whose text was made.
/// It is freed where it is dropped. To free the lists and texts of all records and statements one by one takes time,
/// which whoever ends soon can spare.
#[derive(Drop)]
pub struct PassRest<'m> {
    pub records: Vec<Record<'m>>,
    pub file: NinjaFile,
}

/// The records of a graph alone. The rest of it, above all the list of its nodes, is freed.
pub fn records_of(alloc: Global, graph: Graph<Record<'_>>) -> Result<Vec<Record<'_>>, OutOfMemory> {
    let mut records = Vec::with_capacity(alloc, graph.nodes.as_slice().len())?;
    for node in graph.nodes.into_vec() {
        records.push(node.payload)?;
    }
    Ok(records)
}

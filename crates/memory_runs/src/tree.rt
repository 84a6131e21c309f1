use bp_faults::{OutOfMemory, Text};
use bp_ports::MemStore;
use std::alloc::Global;

/// Puts a file into a tree.
pub fn put(
    alloc: Global,
    path: &str,
    bytes: &[u8],
    tree: &mut Vec<(Text, Vec<u8>)>,
) -> Result<(), OutOfMemory> {
    tree.push((Text::from_str(alloc, path)?, bytes.to_vec(alloc)?))?;
    Ok(())
}

/// A tree of one file.
pub fn one_file(
    alloc: Global,
    path: &str,
    bytes: &[u8],
) -> Result<Vec<(Text, Vec<u8>)>, OutOfMemory> {
    let mut tree = Vec::new(alloc);
    put(alloc, path, bytes, &mut tree)?;
    Ok(tree)
}

/// The tree of a text: `@` begins a file, and stands before its path and a line end. The file `list` names them all.
pub fn tree_of(alloc: Global, text: &str) -> Result<Vec<(Text, Vec<u8>)>, OutOfMemory> {
    let mut tree = Vec::new(alloc);
    let mut list = String::new(alloc);
    for part in text.split('@') {
        if let Some((path, file)) = part.split_once('\n') {
            list.push_str(path)?;
            list.push_str("\n")?;
            put(alloc, path, file.as_bytes(), &mut tree)?;
        }
    }
    put(alloc, "list", list.as_bytes(), &mut tree)?;
    Ok(tree)
}

/// A store that holds a tree, and has room for what is written.
pub fn store_of(alloc: Global, tree: Vec<(Text, Vec<u8>)>) -> Result<MemStore, OutOfMemory> {
    MemStore::new(alloc, tree, 1 << 20, Vec::new(alloc))
}

/// A store that holds a tree and has room for 9,000 bytes, whose call of this number fails.
pub fn store_that_fails(
    alloc: Global,
    tree: Vec<(Text, Vec<u8>)>,
    call: u32,
) -> Result<MemStore, OutOfMemory> {
    MemStore::new(alloc, tree, 9000, vec![in alloc; call]?)
}

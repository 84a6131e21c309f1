ghost use Rattle.std.specs.Prelude.{◌≡◌, ◌<◌, ◌≤◌, ◌*◌, IfOk, OnOk};
ghost use Rattle.std.specs.List.{All, range_with_len};
ghost use Rattle.std.specs.List.Sorted.{IsPermutation, IsStrictlySortedBy};
ghost use Rattle.bp_faults.specs.declared.limits.TheConstants.{MOST_SYNTHETIC_MODULES};
ghost use Rattle.synthetic_tree.specs.Blocks.{block_cmp, block_count, block_text, block_path};

use crate::module::module_text;
use bp_faults::{OutOfMemory, Path, Text};
use itoa::Buffer;
use std::alloc::{AllocError, Global};
use std::cmp::Ordering;

/// The path of a block's file.
pub fn path(alloc: Global, block: u32) -> Result<Path, OutOfMemory>
    ensures { IfOk result (λ path. path ≡ block_path block) }
{
    let text = format!(in alloc; "b{block}/Android.bp")?;
    Ok(Path::new(Text::new(text)).unwrap())
}

/// The text of a block's file. Each text is put at the end, so the work is linear in the whole.
pub fn bytes(alloc: Global, seed: u32, modules: u32, block: u32) -> Result<Vec<u8>, AllocError>
    requires few { modules ≤ MOST_SYNTHETIC_MODULES }
    requires there { 64 * block < modules }
    ensures { IfOk result (λ bytes. bytes.items ≡ block_text seed modules block) }
{
    let first = 64 * block;
    let size = (modules - first).min(64);
    let mut bytes = Vec::new(alloc);
    for i in first..first + size {
        let text = module_text(alloc, seed, i)?;
        bytes.extend_from_slice(text.as_bytes())?;
    }
    Ok(bytes)
}

fn compare(a: u32, b: u32) -> Ordering
    ensures { result ≡ block_cmp a b }
{
    let mut first = Buffer::new();
    let mut second = Buffer::new();
    first.format(a).cmp(second.format(b))
}

/// The numbers of all blocks, in the order of their directories.
pub fn blocks(alloc: Global, modules: u32) -> Result<Vec<u32>, AllocError>
    requires { modules ≤ MOST_SYNTHETIC_MODULES }
    ensures all { IfOk result (λ blocks. IsPermutation (range_with_len 0 (block_count modules)) blocks.items) }
    ensures within { IfOk result (λ blocks. All (λ block. 64 * block < modules) blocks.items) }
    ensures order { IfOk result (λ blocks. IsStrictlySortedBy block_cmp blocks.items) }
{
    let mut blocks = Vec::new(alloc);
    for block in 0..(modules + 63) / 64 {
        blocks.push(block)?;
    }
    blocks.sort_by(|a, b| compare(*a, *b))?;
    Ok(blocks)
}

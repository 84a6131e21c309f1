ghost use Rattle.std.specs.Prelude.{◌≤◌, IfOk, length, map};
ghost use Rattle.std.specs.List.{All};
ghost use Rattle.bp_faults.specs.declared.limits.TheConstants.{LARGEST_FILE, MOST_FILES, MOST_SYNTHETIC_MODULES};
ghost use Rattle.bp_load.specs.Directories.{AreInFileOrder};
ghost use Rattle.bp_load.specs.Trees.{sources_given};

use bp_faults::limits::{LARGEST_FILE, MOST_FILES};
use bp_faults::{OutOfMemory, Path};
use std::alloc::Global;
use synthetic_tree::synth_tree;

/// What each file sets behind its modules.
const VARIABLES: &str = "first_flags = [\"-O2\", \"-Wall\", \"-Wextra\"]
more_flags = first_flags + [\"-fno-exceptions\", \"-fno-asynchronous-unwind-tables\"]
first_name = \"a name that takes more than sixteen bytes\"
second_name = first_name + \" and then some more\"
first_map = { cflags: more_flags, name: second_name }
second_map = first_map + { cflags: [\"-g\"] }
";

// The bytes of a file that sets the variables too.
fn with_variables(mut bytes: Vec<u8>) -> Result<Vec<u8>, OutOfMemory>
    ensures { IfOk result (λ more. length more.items ≤ LARGEST_FILE) }
{
    bytes.extend_from_slice(VARIABLES.as_bytes())?;
    if bytes.len() as u64 > LARGEST_FILE {
        return Err(OutOfMemory);
    }
    Ok(bytes)
}

/// A synthetic tree, each file of which sets variables.
pub fn tree_of(alloc: Global, modules: u32) -> Result<Vec<(Path, Vec<u8>)>, OutOfMemory>
    requires some { 1 ≤ modules }
    requires few { modules ≤ MOST_SYNTHETIC_MODULES }
    ensures few { IfOk result (λ files. length files.items ≤ MOST_FILES) }
    ensures order { IfOk result (λ files. AreInFileOrder (map (λ f. f.0) (sources_given files.items))) }
    ensures short { IfOk result (λ files. All (λ f. length f.1 ≤ LARGEST_FILE) (sources_given files.items)) }
{
    let mut files = Vec::new(alloc);
    for (path, bytes) in synth_tree(alloc, 1, modules)? {
        files.push((path, with_variables(bytes)?))?;
    }
    if files.len() > MOST_FILES {
        return Err(OutOfMemory);
    }
    Ok(files)
}

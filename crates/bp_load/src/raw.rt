ghost use Rattle.std.specs.Prelude.{◌≡◌, ◌≤◌, length, map};
ghost use Rattle.std.specs.List.{All};
ghost use Rattle.bp_faults.specs.Answers.{Tells};
ghost use Rattle.bp_faults.specs.declared.limits.TheConstants.{LARGEST_FILE, MOST_FILES};
ghost use Rattle.bp_load.specs.Directories.{AreInFileOrder};
ghost use Rattle.bp_load.specs.Trees.{sources_given};
ghost use Rattle.bp_load.specs.Inherited.{placed_raw, RawMean};

use crate::LoadError;
use crate::opened::evaluate_all;
use crate::parsed::all_parsed;
use bp_faults::Path;
use bp_values::RawModule;
use std::alloc::Global;

/// The modules of all files with their values, in file order, each with the directory of its file. The first
/// file has the number 1, and no file has more than 2^20 bytes.
///
/// Every file is parsed before the first is evaluated, so a fault of parsing stands before every fault of
/// evaluation; of one phase the first fault in file order is told. Parsing of a file has the faults *not
/// UTF-8*, then those of tokens, then those of the tree.
pub fn raw_modules(
    alloc: Global,
    files: &[(Path, Vec<u8>)],
) -> Result<Vec<(Path, RawModule)>, LoadError>
    requires few { length files.now ≤ MOST_FILES }
    requires order { AreInFileOrder (map (λ f. f.0) (sources_given files.now)) }
    requires short { All (λ f. length f.1 ≤ LARGEST_FILE) (sources_given files.now) }
    ensures { Tells (λ modules. map placed_raw modules.items) (RawMean (sources_given files.now)) result }
{
    let parsed = all_parsed(alloc, files, 1)?;
    evaluate_all(alloc, parsed)
}

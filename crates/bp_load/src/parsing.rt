ghost use Rattle.std.specs.Prelude.{◌≡◌, ◌+◌, ◌<◌, ◌≤◌, ◌^◌, ◌++◌, length, sum_by};
ghost use Rattle.std.specs.List.{All};
ghost use Rattle.std.specs.Thread.{IsSync};
ghost use Rattle.bp_faults.specs.declared.limits.TheConstants.{LARGEST_FILE};
ghost use Rattle.bp_load.specs.Halves.{CanParse, TellsTrees};
ghost use Rattle.bp_load.specs.Trees.{sources_given};

use crate::LoadError;
use crate::halves::{joined, share};
use crate::parsed::{Parsed, all_parsed};
use bp_faults::Path;
use std::alloc::Global;
use std::thread::{Threads, join};

/// Files with fewer bytes in all are parsed by one worker.
const FEW_BYTES: usize = 65_536;

/// The bytes of files in all.
fn size(files: &[(Path, Vec<u8>)]) -> usize
    requires few { length files.now < 2 ^ 32 }
    requires short { All (λ f. length f.1 ≤ LARGEST_FILE) (sources_given files.now) }
    ensures { result ≡ sum_by (λ f. length f.1) (sources_given files.now) }
{
    let mut bytes = 0;
    'files: for file in files {
        bytes += file.1.len();
    }
    bytes
}

/// Where to cut files, so that those in front have about so many bytes. The first stands in front, and each
/// other whose middle is before the cut.
fn cut(files: &[(Path, Vec<u8>)], share: usize) -> usize
    requires few { length files.now < 2 ^ 32 }
    requires short { All (λ f. length f.1 ≤ LARGEST_FILE) (sources_given files.now) }
    ensures { result ≤ length files.now }
{
    let mut bytes = 0;
    let mut count = 0;
    'files: for file in files {
        if count > 0 && bytes + file.1.len() / 2 >= share {
            return count;
        }
        bytes += file.1.len();
        count += 1;
    }
    count
}

/// Files cut in two, so that those in front have about so many bytes, and the number of the first behind.
fn in_two(
    files: &[(Path, Vec<u8>)],
    number: u32,
    share: usize,
) -> (&[(Path, Vec<u8>)], &[(Path, Vec<u8>)], u32)
    requires { CanParse number files.now }
    ensures whole { result.0.now ++ result.1.now ≡ files.now }
    ensures next { result.2 ≡ number + length result.0.now }
    ensures front { CanParse number result.0.now }
    ensures back { CanParse result.2 result.1.now }
{
    let at = cut(files, share);
    let (front, back) = files.split_at(at);
    (front, back, number + at as u32)
}

/// Files parsed by so many workers, as `all_parsed` does it. Each time the files are cut in two, their bytes in
/// the proportion of the workers.
#[cycle(parsing)]
pub fn parsed_by<R: Threads + Sync>(
    rt: &R,
    alloc: Global,
    files: &[(Path, Vec<u8>)],
    number: u32,
    workers: u32,
) -> Result<Vec<Parsed>, LoadError>
    requires { CanParse number files.now }
    ensures { TellsTrees number files.now result }
{
    let bytes = size(files);
    if workers < 2 || files.len() < 2 || bytes < FEW_BYTES {
        return all_parsed(alloc, files, number);
    }
    let some = workers / 2;
    let others = workers - some;
    let (front, back, next) = in_two(files, number, share(bytes, some, workers));
    let parse_front = || -> Result<Vec<Parsed>, LoadError>
        requires { IsSync R.row × CanParse number front.now }
        ensures { TellsTrees number front.entry.now result }
    { parsed_by(rt, alloc, front, number, some) };
    let parse_back = || -> Result<Vec<Parsed>, LoadError>
        requires { IsSync R.row × CanParse next back.now }
        ensures { TellsTrees next back.entry.now result }
    { parsed_by(rt, alloc, back, next, others) };
    let (front, back) = join(rt, parse_front, parse_back);
    joined(front, back)
}

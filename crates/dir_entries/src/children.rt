ghost use Rattle.std.specs.Prelude.{◌≡◌, IfOk};
ghost use Rattle.dir_entries.specs.Below.{child};

use bp_faults::{OutOfMemory, Text};
use std::alloc::Global;

/// The path of a name in a directory, of which the root is the empty path.
pub fn child(alloc: Global, dir: &str, name: &str) -> Result<Text, OutOfMemory>
    ensures { IfOk result (λ path. path ≡ child dir.now name.now) }
{
    if dir.is_empty() {
        return Text::from_str(alloc, name);
    }
    let room = dir.len().saturating_add(name.len()).saturating_add(1);
    let mut path = Text::with_room(alloc, room)?;
    path.push_str(dir)?;
    path.push_str("/")?;
    path.push_str(name)?;
    Ok(path)
}

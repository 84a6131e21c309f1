ghost use Rattle.std.specs.Prelude.{◌≡◌, ◌∷◌, [], true, IfOk, List, ℕ, drop};
ghost use Rattle.std.specs.List.{list_any};
ghost use Rattle.path_patterns.specs.Globs.{has_star};
ghost use Rattle.path_patterns.specs.Levels.{FirstMeans};
ghost use Rattle.path_patterns.specs.Stages.{way_of};

use crate::glob::has_star;
use crate::names::{is_clear, is_component};
use crate::row::Reached;
use crate::walk::OnWay;
use bp_faults::{OutOfMemory, Text};
use dir_entries::child;
use std::alloc::Global;

/// A directory from which all components from `at` on are left.
fn on_way(alloc: Global, path: Text, clear: bool, at: usize) -> Result<OnWay, OutOfMemory>
    ensures { IfOk result (λ first. (parts : List (List ℕ))
        → way_of parts first ≡ record { path = path; clear = clear; rests = (0, drop at parts) ∷ [] }) }
{
    let mut row = Vec::new(alloc);
    row.push(Reached { at, skips: 0 })?;
    Ok(OnWay { path, clear, row })
}

/// Where the walk of a pattern with `*` begins: at the directory of the components before the first with `*`, unless
/// one of them is none of a path in normal form.
pub fn first_on_way(alloc: Global, dir: &Text, parts: &[Text]) -> Result<Option<OnWay>, OutOfMemory>
    requires { list_any has_star parts.now ≡ true }
    ensures { IfOk result (λ first. FirstMeans dir.now parts.now first) }
{
    let mut path = dir.copy(alloc)?;
    let mut clear = true;
    for at in 0..parts.len() {
        let part = parts[at].as_str();
        if has_star(part) {
            return Ok(Some(on_way(alloc, path, clear, at)?));
        }
        if !is_component(part) {
            return Ok(None);
        }
        path = child(alloc, path.as_str(), part)?;
        clear = clear & is_clear(part);
    }
    Ok(None)
}

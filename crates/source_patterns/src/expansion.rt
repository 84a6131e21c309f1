ghost use Rattle.std.specs.Prelude.{◌≡◌, IfSome};
ghost use Rattle.std.specs.FinMap.{keys};
ghost use Rattle.source_patterns.specs.Answers.{ExpandGives, ExpandCause};
ghost use Rattle.source_patterns.specs.Listed.{AreKept};
ghost use Rattle.source_patterns.specs.Expansion.{ExpandMeans};
ghost use Rattle.source_patterns.specs.Walked.{ExpandWalks};

use crate::ExpandError;
use crate::listings::{Cache, Listings};
use crate::modules::expand_all;
use bp_ports::Store;
use bp_props::Module;
use std::alloc::Global;

/// Expands modules over the directories of a store, which stay where they are read from.
fn expand_over<S: Store>(
    alloc: Global,
    dirs: &mut Listings<'_, '_, S>,
    mods: Vec<Module>,
) -> Result<Vec<Module>, ExpandError>
    requires { IfSome (S.files dirs.old.store.now) (λ files. AreKept (keys files) dirs.old.cache.now.known.entries) }
    ensures gives { IfSome (S.files dirs.old.store.now) (λ files. ExpandGives (λ more. more.items)
        (ExpandMeans (keys files) mods.items) (ExpandWalks (keys files) mods.items) result) }
    ensures place { dirs.new.store.ghost_name ≡ dirs.old.store.ghost_name }
    ensures cache { dirs.new.cache.ghost_name ≡ dirs.old.cache.ghost_name }
    ensures files { S.files dirs.new.store.now ≡ S.files dirs.old.store.now }
    ensures cause { ExpandCause (S.read_faults dirs.old.store.now) (S.read_faults dirs.new.store.now) result }
    ensures writes { S.write_faults dirs.new.store.now ≡ S.write_faults dirs.old.store.now }
{
    expand_all(alloc, dirs, mods)
}

/// Replaces each pattern in the sources of modules by the held paths that it matches. Each directory is listed once.
pub fn expand<S: Store>(
    alloc: Global,
    mods: Vec<Module>,
    store: &mut S,
) -> Result<Vec<Module>, ExpandError>
    ensures gives { IfSome (S.files store.old) (λ files. ExpandGives (λ more. more.items)
        (ExpandMeans (keys files) mods.items) (ExpandWalks (keys files) mods.items) result) }
    ensures files { S.files store.new ≡ S.files store.old }
    ensures cause { ExpandCause (S.read_faults store.old) (S.read_faults store.new) result }
    ensures writes { S.write_faults store.new ≡ S.write_faults store.old }
{
    let mut cache = Cache::new(alloc);
    let mut dirs = Listings {
        store,
        cache: &mut cache,
    };
    expand_over(alloc, &mut dirs, mods)
}

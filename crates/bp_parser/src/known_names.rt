ghost use Rattle.std.specs.Prelude.{◌≡◌, [], not, IfOk, OnOk};
ghost use Rattle.std.specs.List.{list_any};
ghost use Rattle.std.specs.Str.{bytes_eq};
ghost use Rattle.bp_names.specs.Meaning.{knows, Learns};

use arrayvec::ArrayVec;
use bp_faults::OutOfMemory;
use bp_names::NameSet;
use std::alloc::Global;
use std::marker::Model;

/// How many names stand in the value itself.
const FEW: usize = 8;

/// The names of a map that were met. Contracts see the list of the names.
///
/// The first few stand in the value itself and are compared one by one. The others are in a set, which has none while
/// there is room among the few.
#[derive(Drop)]
pub struct KnownNames<'a> {
    few: ArrayVec<&'a str, FEW>,
    others: NameSet<'a>,
}

impl<'a> Model for KnownNames<'a> {
    ghost use Rattle.std.specs.Prelude.{◌≡◌, ◌<◌, ℕ, List, [], ◌++◌, map, length};

    ghost Value = { List (List ℕ) };

    ghost view = { λ known. map (λ name. name.now) known.few.items ++ known.others };

    ghost invariant = { λ known. length known.few.items < 8 → known.others ≡ [] };
}

// Whether a name is among these. Names of unequal lengths differ at once.
fn is_one_of(name: &str, names: &[&str]) -> bool
    ensures { result ≡ list_any (λ known. bytes_eq name.now known.now) names.now }
{
    names.iter().any(|known| name == *known)
}

impl<'a> KnownNames<'a> {
    /// No names. It takes no memory.
    pub fn new(alloc: Global) -> KnownNames<'a>
        ensures { result ≡ [] }
    {
        KnownNames {
            few: ArrayVec::new(),
            others: NameSet::new(alloc),
        }
    }

    /// Adds a name. Whether it is new.
    #[tactic(auto, using(crate::proofs::KnownNames::both_know))]
    pub fn learn(&mut self, name: &'a str) -> Result<bool, OutOfMemory>
        ensures new { IfOk result (λ new. new ≡ not (knows self.old name.now)) }
        ensures known { OnOk result (Learns self.old name.now self.new) }
    {
        if is_one_of(name, &self.few) {
            return Ok(false);
        }
        if self.few.is_full() {
            return self.others.learn(name);
        }
        self.few.push(name);
        Ok(true)
    }
}

ghost use Rattle.std.specs.Prelude.{◌≡◌, Bool, map};
ghost use Rattle.std.specs.Arc.{arc_value};
ghost use Rattle.std.specs.Cmp.Lexicographic.{pointwise};
ghost use Rattle.bp_faults.specs.Same.{IsEquality};

use crate::{Fault, FaultKind, Item, ModuleId, NodeId, Path, Place, Seq, Target, Text};
use std::sync::Arc;

/// A value that can be compared exactly: `same` says yes where contracts see one value twice, and nowhere else. So what
/// is a function of the one is the same function of the other.
///
/// `PartialEq` promises less: its `==` is symmetric and transitive, and may take two values for equal that contracts
/// tell apart, as it does where a field isn't compared. Code over any type learns nothing more of it.
///
/// A type has no instance whose contracts see where it lies in memory, as `Arc`, `Vec` and `String` do. Of those behind
/// an `Arc` the values are compared (`same_shared`).
pub trait Same: Sized {
    /// What the comparison answers.
    ghost same_as: { Self → Self → Bool };

    /// Whether contracts see the same value in both.
    fn same(&self, other: &Self) -> bool
        ensures { result ≡ same_as self.now other.now };

    /// The comparison says yes exactly where they do.
    ghost tells: { IsEquality same_as };
}

/// Whether two slices have the same items.
pub fn same_each<T: Same>(items: &[T], others: &[T]) -> bool
    ensures { result ≡ pointwise T.same_as items.now others.now }
{
    let mut rest = others;
    for item in items {
        match rest {
            [other, more @ ..] if item.same(other) => rest = more,
            _ => return false,
        }
    }
    rest.is_empty()
}

/// Whether the same values are behind two slices.
pub fn same_shared<T: Same>(items: &[Arc<T>], others: &[Arc<T>]) -> bool
    ensures { result ≡ pointwise T.same_as (map arc_value items.now) (map arc_value others.now) }
{
    let mut rest = others;
    for item in items {
        match rest {
            [other, more @ ..] if item.same(other) => rest = more,
            _ => return false,
        }
    }
    rest.is_empty()
}

impl Same for bool {
    ghost use Rattle.std.specs.Bool.{beq};
    ghost use Rattle.std.specs.Cmp.{booleans_Decides};

    ghost same_as = { beq };

    fn same(&self, other: &bool) -> bool {
        self == other
    }

    ghost tells = { booleans_Decides };
}

impl Same for u32 {
    ghost use Rattle.std.specs.Prelude.{◌==◌};
    ghost use Rattle.std.specs.Cmp.{unsigned_Decides};

    ghost same_as = { λ a b. a == b };

    fn same(&self, other: &u32) -> bool {
        self == other
    }

    ghost tells = { unsigned_Decides };
}

impl Same for u64 {
    ghost use Rattle.std.specs.Prelude.{◌==◌};
    ghost use Rattle.std.specs.Cmp.{unsigned_Decides};

    ghost same_as = { λ a b. a == b };

    fn same(&self, other: &u64) -> bool {
        self == other
    }

    ghost tells = { unsigned_Decides };
}

impl Same for usize {
    ghost use Rattle.std.specs.Prelude.{◌==◌};
    ghost use Rattle.std.specs.Cmp.{unsigned_Decides};

    ghost same_as = { λ a b. a == b };

    fn same(&self, other: &usize) -> bool {
        self == other
    }

    ghost tells = { unsigned_Decides };
}

impl Same for Text {
    ghost use Rattle.std.specs.Str.{bytes_eq};
    ghost use Rattle.std.specs.Cmp.Lexicographic.{bytes_decides};

    ghost same_as = { bytes_eq };

    fn same(&self, other: &Text) -> bool {
        self == other
    }

    ghost tells = { bytes_decides };
}

impl Same for Path {
    ghost use Rattle.std.specs.Str.{bytes_eq};
    ghost use Rattle.std.specs.Cmp.Lexicographic.{bytes_decides};

    ghost same_as = { bytes_eq };

    fn same(&self, other: &Path) -> bool {
        self == other
    }

    ghost tells = { bytes_decides };
}

impl Same for NodeId {
    ghost use Rattle.std.proofs.Common.{rules};

    ghost same_as = { ⟦<NodeId as PartialEq>⟧.eq };

    fn same(&self, other: &NodeId) -> bool {
        self == other
    }

    ghost tells = { Prim.search rules };
}

impl Same for ModuleId {
    ghost use Rattle.std.proofs.Common.{rules};

    ghost same_as = { ⟦<ModuleId as PartialEq>⟧.eq };

    fn same(&self, other: &ModuleId) -> bool {
        self == other
    }

    ghost tells = { Prim.search rules };
}

impl Same for Place {
    ghost use Rattle.std.proofs.Common.{rules};

    ghost same_as = { ⟦<Place as PartialEq>⟧.eq };

    fn same(&self, other: &Place) -> bool {
        self == other
    }

    ghost tells = { Prim.search rules };
}

impl Same for Item {
    ghost use Rattle.std.proofs.Common.{rules};

    ghost same_as = { ⟦<Item as PartialEq>⟧.eq };

    fn same(&self, other: &Item) -> bool {
        self == other
    }

    ghost tells = { Prim.search rules };
}

impl Same for Target {
    ghost use Rattle.std.proofs.Common.{rules};

    ghost same_as = { ⟦<Target as PartialEq>⟧.eq };

    fn same(&self, other: &Target) -> bool {
        self == other
    }

    ghost tells = { Prim.search rules };
}

impl Same for FaultKind {
    ghost use Rattle.std.proofs.Common.{rules};

    ghost same_as = { ⟦<FaultKind as PartialEq>⟧.eq };

    fn same(&self, other: &FaultKind) -> bool {
        self == other
    }

    ghost tells = { Prim.search rules };
}

impl Same for Fault {
    ghost use Rattle.std.specs.Str.{bytes_eq};
    ghost use Rattle.std.specs.Cmp.Lexicographic.{bytes_decides};
    ghost use Rattle.bp_faults.specs.Same.{same_pairs, fault_parts, fault_of_parts};
    ghost use Rattle.bp_faults.specs.Equalities.{lists_tell, pairs_tell, parts_tell};
    ghost use Rattle.std.proofs.Common.{refl, rules};

    ghost same_as = { λ a b. same_pairs ⟦<FaultKind as Same>⟧.same_as (same_pairs ⟦<Place as Same>⟧.same_as
        (same_pairs bytes_eq (pointwise bytes_eq))) (fault_parts a) (fault_parts b) };

    fn same(&self, other: &Fault) -> bool {
        self.kind.same(&other.kind)
            && self.at.same(&other.at)
            && self.subject.same(&other.subject)
            && self.chain.same(&other.chain)
    }

    ghost tells = { parts_tell fault_parts fault_of_parts (λ f. refl)
        (pairs_tell {first = ⟦<FaultKind as Same>⟧.same_as} (Prim.search rules)
        (pairs_tell {first = ⟦<Place as Same>⟧.same_as} (Prim.search rules)
        (pairs_tell bytes_decides (lists_tell bytes_decides)))) };
}

impl<T: Same> Same for Seq<T> {
    ghost use Rattle.bp_faults.specs.Equalities.{lists_tell};

    ghost same_as = { pointwise T.same_as };

    fn same(&self, other: &Seq<T>) -> bool {
        same_each(self.as_slice(), other.as_slice())
    }

    ghost tells = { lists_tell T.tells };
}

impl<T: Same> Same for Option<T> {
    ghost use Rattle.std.specs.Option.{option_eq};
    ghost use Rattle.bp_faults.specs.Equalities.{options_tell};

    ghost same_as = { option_eq T.same_as };

    fn same(&self, other: &Option<T>) -> bool {
        match (self, other) {
            (None, None) => true,
            (Some(item), Some(other)) => item.same(other),
            _ => false,
        }
    }

    ghost tells = { options_tell T.tells };
}

impl<A: Same, B: Same> Same for (A, B) {
    ghost use Rattle.bp_faults.specs.Same.{same_pairs};
    ghost use Rattle.bp_faults.specs.Equalities.{pairs_tell};

    ghost same_as = { same_pairs A.same_as B.same_as };

    fn same(&self, other: &(A, B)) -> bool {
        self.0.same(&other.0) && self.1.same(&other.1)
    }

    ghost tells = { pairs_tell A.tells B.tells };
}

ghost use Rattle.std.specs.Prelude.{◌≡◌, ◌↔◌, IsTrue};
ghost use Rattle.graph_nodes.specs.Same.{same};

use bp_faults::Target;

/// In what a variant of a module differs from its others, along one axis.
#[derive(Clone, Copy, Debug, PartialEq, Eq)]
pub enum Variation {
    Empty,
    Target(Target),
    Common,
    Vendor,
    Recovery,
    Static,
    Shared,
    /// The variant of one source, counted from 1.
    PerSource(u64),
    Asan,
}

fn is_equal(one: Variation, other: Variation) -> bool
    ensures { IsTrue result ↔ one ≡ other }
{
    one == other
}

impl Variation {
    /// Whether two variations are the same.
    pub fn is_same(self, other: Variation) -> bool
        ensures equal { IsTrue result ↔ self ≡ other }
        ensures test { result ≡ same self other }
    {
        is_equal(self, other)
    }
}

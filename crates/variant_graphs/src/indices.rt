ghost use Rattle.std.specs.Prelude.{◌≡◌, ◌≢◌};
ghost use Rattle.std.specs.List.{AllPairs, list_any, position};
ghost use Rattle.graph_nodes.specs.Same.{same};

use module_graph::Variation;
use module_graph::laws::same_means_equal;

/// Whether a variation stands in a list.
pub fn holds(list: &[Variation], v: Variation) -> bool
    ensures { result ≡ list_any (same v) list.now }
{
    for other in list {
        if v.is_same(*other) {
            return true;
        }
    }
    false
}

/// The first index of a variation in a list.
fn first_index(list: &[Variation], v: Variation) -> Option<usize>
    ensures { result ≡ position (same v) list.now }
{
    for (i, other) in list.iter().enumerate() {
        if v.is_same(*other) {
            return Some(i);
        }
    }
    None
}

/// The index of a variation in a list of variations that differ. `guess` is tried first.
pub fn index_in(list: &[Variation], v: Variation, guess: usize) -> Option<usize>
    requires { AllPairs (λ v w. v ≢ w) list.now }
    ensures { result ≡ position (same v) list.now }
{
    same_means_equal();
    if guess < list.len() && v.is_same(list[guess]) {
        return Some(guess);
    }
    first_index(list, v)
}

ghost use Rattle.std.specs.Prelude.{◌≡◌};
ghost use Rattle.linkage_mutator.specs.Wanting.{own_with};

use module_graph::{Axis, Variation, Variations};
use mutator_rules::Wanted;

/// A variant of the node's own target and image, with a link.
pub fn own_with(vars: &Variations, link: Variation) -> Wanted
    ensures { result ≡ own_with vars.now link }
{
    Wanted {
        target: vars.get(Axis::Target),
        image: vars.get(Axis::Image),
        link,
    }
}

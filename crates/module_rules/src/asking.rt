ghost use Rattle.std.specs.Prelude.{◌≡◌, ◌++◌, IfOk, OnOk};
ghost use Rattle.module_rules.specs.Asking.{request, requests};

use bp_faults::{Item, OutOfMemory, Payload, Seq};
use bp_props::Listed;
use module_graph::{EdgeKind, Variation};
use mutator_rules::{Request, Wanted};
use std::alloc::Global;

/// What is wanted before any split: all three variations empty.
pub const NO_VARIATIONS: Wanted = Wanted {
    target: Variation::Empty,
    image: Variation::Empty,
    link: Variation::Empty,
};

/// What is wanted of a `filegroup`.
pub const COMMON: Wanted = Wanted {
    target: Variation::Common,
    image: Variation::Empty,
    link: Variation::Empty,
};

/// The request for an edge to the module that an item names.
pub fn request(
    alloc: Global,
    kind: EdgeKind,
    want: Wanted,
    item: &Item,
) -> Result<Request, OutOfMemory>
    ensures { IfOk result (λ made. made ≡ request kind want item.now) }
{
    Ok(Request {
        reverse: false,
        kind,
        name: item.text.copy(alloc)?,
        at: item.at,
        want,
    })
}

/// Adds a request for each item of a list.
pub fn ask(
    alloc: Global,
    asked: &mut Seq<Request>,
    kind: EdgeKind,
    want: Wanted,
    list: &Listed<Item>,
) -> Result<(), OutOfMemory>
    ensures { OnOk result (asked.new ≡ asked.old ++ requests kind want list.now.items) }
{
    for item in list.items() {
        asked.push(request(alloc, kind, want, item)?)?;
    }
    Ok(())
}

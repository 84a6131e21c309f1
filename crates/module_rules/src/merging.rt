ghost use Rattle.std.specs.Prelude.{◌≡◌, OnOk};
ghost use Rattle.bp_props.specs.Records.{props_followed, props_over};

use crate::Record;
use bp_faults::OutOfMemory;
use bp_props::Props;
use std::alloc::Global;

impl Record<'_> {
    /// Puts this record behind some properties, as `Props::follow` does.
    pub fn put_behind(&self, alloc: Global, first: &mut Props) -> Result<(), OutOfMemory>
        ensures { OnOk result (first.new ≡ props_followed first.old self.now) }
    {
        match self.plain() {
            Some(props) => first.follow(alloc, props),
            None => first.follow(alloc, &self.to_props(alloc)?),
        }
    }

    /// Puts this record over the properties that its defaults give, as `Props::over` does.
    pub fn put_over(&self, alloc: Global, defaults: &mut Props) -> Result<(), OutOfMemory>
        ensures { OnOk result (defaults.new ≡ props_over defaults.old self.now) }
    {
        match self.plain() {
            Some(props) => defaults.over(alloc, props),
            None => defaults.over(alloc, &self.to_props(alloc)?),
        }
    }
}

ghost use Rattle.std.specs.Prelude.{◌≡◌, IfOk};
ghost use Rattle.bp_props.specs.Meaning.{kept_scalar};

use bp_faults::{OutOfMemory, Place, Text};
use std::alloc::Global;

/// A scalar that is set, with the place of its entry.
#[derive(Clone, Copy, Debug, Drop, PartialEq)]
pub struct Given<T> {
    pub value: T,
    pub at: Place,
}

pub(crate) fn keep_scalar<T: Drop>(scalar: &mut Option<Given<T>>, keeps: bool)
    ensures { scalar.new ≡ kept_scalar keeps scalar.old }
{
    if !keeps {
        *scalar = None;
    }
}

pub(crate) fn copy_name(
    alloc: Global,
    name: &Option<Given<Text>>,
) -> Result<Option<Given<Text>>, OutOfMemory>
    ensures { IfOk result (λ copy. copy ≡ name.now) }
{
    match name {
        Some(name) => Ok(Some(Given {
            value: name.value.copy(alloc)?,
            at: name.at,
        })),
        None => Ok(None),
    }
}

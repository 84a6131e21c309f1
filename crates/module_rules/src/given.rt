ghost use Rattle.std.specs.Arc.{arc_value};
ghost use Rattle.std.specs.Prelude.{◌≡◌, IfOk};
ghost use Rattle.module_rules.specs.Lent.{props_of};

use bp_faults::{OutOfMemory, Payload};
use bp_props::Props;
use std::alloc::Global;
use std::sync::Arc;

/// The properties that are given of a record: those of a module, which lends them, or others, which nodes share.
#[derive(Debug, Drop)]
pub enum GivenProps<'m> {
    Lent(&'m Props),
    Shared(Arc<Props>),
}

/// A value out of its box: moved where nobody else holds it, else a copy.
pub fn unshared<T: Payload + Drop>(alloc: Global, shared: Arc<T>) -> Result<T, OutOfMemory>
    ensures { IfOk result (λ value. value ≡ arc_value shared) }
{
    match Arc::try_unwrap(shared) {
        Ok(value) => Ok(value),
        Err(still_shared) => still_shared.copy(alloc),
    }
}

impl<'m> GivenProps<'m> {
    /// The properties, to read them.
    pub fn props(&self) -> &Props
        ensures { result.now ≡ props_of self.now }
    {
        match self {
            GivenProps::Lent(props) => props,
            GivenProps::Shared(props) => props,
        }
    }

    /// The same properties for one more record: lent again, or shared.
    pub fn again(&self) -> Result<GivenProps<'m>, OutOfMemory>
        ensures { IfOk result (λ made. props_of made ≡ props_of self.now) }
    {
        match self {
            GivenProps::Lent(props) => Ok(GivenProps::Lent(props)),
            GivenProps::Shared(props) => Ok(GivenProps::Shared(props.clone()?)),
        }
    }

    /// The same properties, lent by no module: shared as they are, or a copy of what is lent.
    pub fn kept(self, alloc: Global) -> Result<GivenProps<'static>, OutOfMemory>
        ensures { IfOk result (λ made. props_of made ≡ props_of self.entry) }
    {
        match self {
            GivenProps::Lent(props) => {
                Ok(GivenProps::Shared(Arc::new(alloc, props.copy(alloc)?)?))
            }
            GivenProps::Shared(props) => Ok(GivenProps::Shared(props)),
        }
    }

    /// The properties, to change them: moved where nobody else holds them, else a copy.
    pub fn into_props(self, alloc: Global) -> Result<Props, OutOfMemory>
        ensures { IfOk result (λ props. props ≡ props_of self.entry) }
    {
        match self {
            GivenProps::Lent(props) => props.copy(alloc),
            GivenProps::Shared(props) => unshared(alloc, props),
        }
    }
}

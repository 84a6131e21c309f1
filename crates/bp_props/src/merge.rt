ghost use Rattle.std.specs.Prelude.{◌≡◌};
ghost use Rattle.bp_props.specs.Meaning.{scalar_merged};

use crate::Given;

/// Whose scalar stands where both records set it.
#[derive(Clone, Copy, Debug)]
pub(crate) enum Winner {
    Receiver,
    Argument,
}

impl Winner {
    /// The scalar that stands, with its place.
    pub(crate) fn of<T: Copy>(
        self,
        receiver: &Option<Given<T>>,
        argument: &Option<Given<T>>,
    ) -> Option<Given<T>>
        ensures { result ≡ scalar_merged self receiver.now argument.now }
    {
        match self {
            Winner::Receiver => receiver.or(*argument),
            Winner::Argument => argument.or(*receiver),
        }
    }
}

//! What holds of the ids of groups: each law is the contract of a function that does nothing.

ghost use Rattle.bp_props.specs.Laws.{IdsAscend, IdsAreListed};

/// Group ids are ordered as in their list.
pub fn ids_ascend()
    ensures { IdsAscend }
{}

/// The list has every group id.
pub fn ids_are_listed()
    ensures { IdsAreListed }
{}

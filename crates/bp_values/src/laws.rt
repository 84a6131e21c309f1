//! What makes the meaning of a file believable: each law is the contract of a function that does nothing.

ghost use Rattle.bp_values.specs.Laws.{InheritedStay, MapsStayDistinct, ValuesDecide};

/// A file changes no variable that it inherits.
pub fn inherited_stay()
    ensures { InheritedStay }
{}

/// What a file means depends on the inherited values by name alone.
pub fn values_decide()
    ensures { ValuesDecide }
{}

/// No map in the values of a file has a name twice, where none has in the file and in what it inherits.
pub fn names_of_a_map_differ()
    ensures { MapsStayDistinct }
{}

//! What holds of names and numbers: each law is the contract of a function that does nothing.

ghost use Rattle.bp_names.specs.Laws.{KnowsWhatItContains, SetsGrowWithLists, FirstNumbersStay, TablesGrowWithLists};

/// A list knows the names that it contains, and no others.
pub fn knows_what_it_contains()
    ensures { KnowsWhatItContains }
{}

/// A set that learns the names of a list one by one is the set of those names.
pub fn sets_grow_with_lists()
    ensures { SetsGrowWithLists }
{}

/// One more name gets the number behind all others, unless it is among them.
pub fn first_numbers_stay()
    ensures { FirstNumbersStay }
{}

/// A table that learns the names of a list one by one, with their numbers, has their first numbers.
pub fn tables_grow_with_lists()
    ensures { TablesGrowWithLists }
{}

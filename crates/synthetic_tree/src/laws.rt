//! What holds of all synthetic trees: each law is the contract of a function that does nothing.

ghost use Rattle.synthetic_tree.specs.Laws.{OneTree, SomeTree};

/// A seed and a number of modules have one tree.
pub fn one_tree()
    ensures { OneTree }
{}

/// A seed has a tree of each number of modules up to `MOST_SYNTHETIC_MODULES`.
pub fn some_tree()
    ensures { SomeTree }
{}

ghost use Rattle.std.specs.Prelude.{List, ℕ};
ghost use Rattle.property_values.specs.Laws.{StaysBelow};

/// A path keeps its directory, and no item leads out of it.
pub fn paths_stay_below()
    ensures { (dir item : List ℕ) → StaysBelow dir item }
{}

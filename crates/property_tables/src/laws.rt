ghost use Rattle.property_tables.specs.Laws.{TablesHaveFields, DropsExactly, EntriesComeFirst};

/// The tables and the fields of the kinds agree.
pub fn tables_have_fields()
    ensures { TablesHaveFields }
{}

/// `typed` answers no module exactly for a `package` or a `license`.
pub fn drops_exactly()
    ensures { DropsExactly }
{}

/// A bad property stands before a missing or a bad name.
pub fn entries_come_first()
    ensures { EntriesComeFirst }
{}

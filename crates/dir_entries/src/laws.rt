//! What holds of directories: each law is the contract of a function that does nothing.

ghost use Rattle.dir_entries.specs.Laws.{EntriesAreOneList, EntriesAreOrdered, PathsGiveEntries};

/// The held paths give a directory its entries in one way alone.
pub fn entries_are_one_list()
    ensures { EntriesAreOneList }
{}

/// Entries are ordered by name, of one name the file first.
pub fn entries_are_ordered()
    ensures { EntriesAreOrdered }
{}

/// Each held path that lies below a directory gives it an entry.
pub fn paths_give_entries()
    ensures { PathsGiveEntries }
{}

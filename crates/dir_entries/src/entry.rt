use bp_faults::Text;

/// An entry of a directory: its name, and whether it is a directory. Entries are ordered by name, of one name the file
/// first.
#[derive(Debug, Drop, PartialEq, Eq, PartialOrd, Ord)]
pub struct DirEntry {
    pub name: Text,
    pub dir: bool,
}

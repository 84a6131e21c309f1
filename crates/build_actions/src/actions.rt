use bp_faults::{Item, Seq, Text};
use ninja_file::Statement;

/// What is done at a node: its build statements, the objects that go into what it makes, what it makes,
/// and the files that its sources come to.
#[derive(Debug, Drop)]
pub struct Actions {
    pub statements: Seq<Statement>,
    pub objects: Seq<Text>,
    pub output: Option<Text>,
    pub files: Seq<Item>,
}

use crate::{ModuleKind, Props};
use bp_faults::{Path, Place, Text};

/// A module: its name, what it is, the directory of its file, the place of its type, and its properties.
#[derive(Debug, Drop)]
pub struct Module {
    pub name: Text,
    pub kind: ModuleKind,
    pub dir: Path,
    pub at: Place,
    pub props: Props,
}

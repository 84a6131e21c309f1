ghost use Rattle.std.specs.Prelude.{◌≡◌};

use crate::Text;

/// A place in a file. Lines and columns count from 1, and a column counts characters.
///
/// File 0 is the list file, files 1 to n are the Android.bp files in file order, and file n + 1 is
/// the order file. Places are ordered by file, line and column (`laws::places_are_ordered`).
#[derive(Clone, Copy, Debug, PartialEq, Eq, PartialOrd, Ord)]
pub struct Place {
    pub file: u32,
    pub line: u32,
    pub col: u32,
}

impl Place {
    ghost use Rattle.bp_faults.specs.Faults.{file_start};

    /// Where a file begins.
    pub fn start(file: u32) -> Place
        ensures { result ≡ file_start file }
    {
        Place {
            file,
            line: 1,
            col: 1,
        }
    }
}

/// A text of a list, and its place.
#[derive(Debug, Drop, PartialEq)]
pub struct Item {
    pub text: Text,
    pub at: Place,
}

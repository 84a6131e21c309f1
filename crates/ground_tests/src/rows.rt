use bp_faults::OutOfMemory;
use std::fmt::{Debug, Write};

/// Adds a line for a case that gives something else than it should, so that a test that fails prints each such case.
pub fn check_row<C: Debug + Drop, V: Debug + PartialEq + Drop>(
    wrong: &mut String,
    case: C,
    found: V,
    want: V,
) -> Result<(), OutOfMemory> {
    if found != want {
        writeln!(wrong, "{case:?} gives {found:?}, not {want:?}")?;
    }
    Ok(())
}

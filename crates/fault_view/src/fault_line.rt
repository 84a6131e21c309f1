ghost use Rattle.std.specs.Prelude.{MatchOption, IfOk};
ghost use Rattle.fault_view.specs.Lines.{IsReadAs, IsNoFaultLine};

use crate::cut::cut;
use bp_faults::{OutOfMemory, Text};
use std::alloc::Global;

/// What a fault line says: `path:line:col: error number: what`.
#[derive(Debug, Drop)]
pub struct FaultLine {
    pub path: Text,
    pub line: u32,
    pub col: u32,
    pub number: u32,
    pub what: Text,
}

/// What a line says, where it is a fault line, with its LF and with a path that has no colon.
pub fn read_fault(alloc: Global, text: &str) -> Result<Option<FaultLine>, OutOfMemory>
    ensures { IfOk result (λ read. MatchOption read (IsNoFaultLine text.now) (IsReadAs text.now)) }
{
    match cut(text) {
        Some(parts) => Ok(Some(FaultLine {
            path: Text::from_str(alloc, parts.path)?,
            line: parts.line,
            col: parts.col,
            number: parts.number,
            what: Text::from_str(alloc, parts.what)?,
        })),
        None => Ok(None),
    }
}

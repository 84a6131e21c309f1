ghost use Rattle.std.specs.Prelude.{◌≡◌, ◌≤◌, length, string_bytes};
ghost use Rattle.bp_faults.specs.Answers.{Tells};
ghost use Rattle.bp_faults.specs.Faults.{fault_at, file_start};
ghost use Rattle.bp_faults.specs.declared.kind.FaultKind.TheVariants as kind;
ghost use Rattle.bp_faults.specs.declared.limits.TheConstants.{LARGEST_FILE};
ghost use Rattle.bp_format.specs.Meaning.{FormatMeans};

use crate::FormatError;
use crate::layout::layout;
use bp_faults::{Fault, FaultKind, Place};
use bp_lexer::tokens;
use bp_parser::parse;
use std::alloc::Global;

/// That a new text is longer than a file may be.
pub fn too_long(alloc: Global, file: u32) -> Fault
    ensures { result ≡ fault_at kind.TextTooLong (file_start file) }
{
    Fault::at(alloc, FaultKind::TextTooLong, Place::start(file))
}

/// The layout of a text, which has at most 2^20 bytes. `file` is the file's number, for places.
///
/// The faults are those of its tokens, then those of its tree, then *text is too long*, where the layout
/// has more than 2^20 bytes.
pub fn format(alloc: Global, text: &str, file: u32) -> Result<String, FormatError>
    requires { length text.now ≤ LARGEST_FILE }
    ensures { Tells string_bytes (FormatMeans file text.now) result }
{
    let tokens = tokens(alloc, text, file)?;
    parse(alloc, text, tokens.as_slice())?;
    match layout(alloc, text, tokens.as_slice())? {
        Some(out) => Ok(out),
        None => Err(FormatError::Bad(too_long(alloc, file))),
    }
}

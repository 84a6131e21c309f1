ghost use Rattle.std.specs.Prelude.{◌≡◌, ◌≤◌, length};
ghost use Rattle.bp_faults.specs.Faults.{fault_at};
ghost use Rattle.bp_faults.specs.declared.kind.FaultKind.TheVariants.{NotUtf8};
ghost use Rattle.bp_faults.specs.declared.limits.TheConstants.{LARGEST_LIST_FILE};
ghost use Rattle.bp_lexer.specs.Places.{place_at};

use bp_faults::{Fault, FaultKind};
use bp_lexer::place_in;
use std::alloc::Global;

/// The fault of bytes that are no text. The first so many of them are.
pub fn not_utf8(alloc: Global, bytes: &[u8], valid: usize, file: u32) -> Fault
    requires within { valid ≤ length bytes.now }
    requires short { length bytes.now ≤ LARGEST_LIST_FILE }
    ensures { result ≡ fault_at NotUtf8 (place_at file bytes.now valid) }
{
    Fault::at(alloc, FaultKind::NotUtf8, place_in(bytes, valid, file))
}

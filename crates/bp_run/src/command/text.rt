//! The text of FILE, for the commands that make another text of it.

ghost use Rattle.std.specs.Prelude.{◌≡◌, ◌≤◌, IfOk, IfSome, Ok, length};
ghost use Rattle.bp_faults.specs.Faults.{fault_at};
ghost use Rattle.bp_faults.specs.declared.kind.FaultKind.TheVariants.{NotUtf8};
ghost use Rattle.bp_faults.specs.declared.limits.TheConstants.{LARGEST_FILE};
ghost use Rattle.bp_lexer.specs.Places.{place_at};
ghost use Rattle.bp_load.specs.Texts.{AsText};
ghost use Rattle.bp_run.specs.Job.{RewriteMeans};
ghost use Rattle.bp_run.specs.Steps.{Exactly, GivesOrRunsOut, GivesOrStops, ReadCause};

use crate::Stop;
use crate::read::read_file;
use bp_faults::limits::LARGEST_FILE;
use bp_faults::{Fault, FaultKind, Text};
use bp_lexer::place_in;
use bp_ports::Store;
use std::alloc::Global;

// The fault of bytes that are no text. The first so many of them are.
fn no_text(alloc: Global, bytes: &[u8], valid: usize) -> Stop
    requires within { valid ≤ length bytes.now }
    requires short { length bytes.now ≤ LARGEST_FILE }
    ensures { result ≡ Stop.Fault (fault_at NotUtf8 (place_at 0 bytes.now valid)) }
{
    Stop::Fault(Fault::at(alloc, FaultKind::NotUtf8, place_in(bytes, valid, 0)))
}

// Bytes as a text: they must be UTF-8.
fn as_text(alloc: Global, bytes: Vec<u8>) -> Result<Text, Stop>
    requires { length bytes.items ≤ LARGEST_FILE }
    ensures gives { GivesOrRunsOut (λ text. text) (AsText 0 bytes.items (Exactly (Ok bytes.items))) result }
    ensures same { IfOk result (λ text. text ≡ bytes.items) }
{
    match String::from_utf8(bytes) {
        Ok(text) => Ok(Text::new(text)),
        Err(error) => Err(no_text(alloc, error.as_bytes(), error.utf8_error().valid_up_to())),
    }
}

/// The text of FILE, which is file 0.
pub fn read_text<S: Store>(alloc: Global, file: &Text, store: &mut S) -> Result<Text, Stop>
    ensures gives { IfSome (S.files store.old) (λ files. GivesOrStops (λ text. text)
        (RewriteMeans file.now (λ bytes. Exactly (Ok bytes)) files) (λ unread. unread ≡ file.now) result) }
    ensures short { IfOk result (λ text. length text ≤ LARGEST_FILE) }
    ensures cause { ReadCause (S.read_faults store.old) (S.read_faults store.new) result }
    ensures files { S.files store.new ≡ S.files store.old }
    ensures writes { S.write_faults store.new ≡ S.write_faults store.old }
{
    let bytes = read_file(alloc, store, file, 0, LARGEST_FILE)?;
    as_text(alloc, bytes)
}

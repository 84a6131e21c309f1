ghost use Rattle.std.specs.Prelude.{◌≡◌, ◌≤◌, IfOk, IfSome, OnOk, OnErr, IsErrOf, MatchOption, string_bytes, Some};
ghost use Rattle.fault_view.specs.Lines.{IsNoFaultLine, IsReadAs};
ghost use Rattle.std.specs.Option.{option_copied};
ghost use Rattle.std.specs.Io.BufRead.{take_through, drop_through};
ghost use Rattle.bp_ports.specs.Causes.{Rose};
ghost use Rattle.bp_ports.specs.Files.{WhereTold};
ghost use Rattle.fault_view.specs.View.{Softly, IsBehind, Anything, Shows, ShowsPart};
ghost use Rattle.fault_view.specs.Input.{IsUnread};
ghost use Rattle.fault_view.specs.Inside.{IsReadNote, PutsLine, PutsAtMost};

use crate::fault_line::{FaultLine, read_fault};
use crate::input::{Input, Unread};
use crate::note::note;
use bp_faults::{OutOfMemory, Text};
use bp_ports::{Failed, Sink, Store};
use std::alloc::{AllocError, Global};

/// Why a call ends before the end of its input.
#[derive(Clone, Copy, Debug, PartialEq, Eq)]
pub enum End {
    CannotRead,
    CannotWrite,
    OutOfMemory,
}

impl From<OutOfMemory> for End {
    ghost use Rattle.std.specs.Prelude.{◌≡◌};
    ghost use Rattle.fault_view.specs.declared.view.End.TheVariants.{OutOfMemory as Want};

    ghost from_gives = { λ _ end. end ≡ Want };

    fn from(_: OutOfMemory) -> Self {
        End::OutOfMemory
    }
}

impl From<AllocError> for End {
    ghost use Rattle.std.specs.Prelude.{◌≡◌};
    ghost use Rattle.fault_view.specs.declared.view.End.TheVariants.{OutOfMemory as Want};

    ghost from_gives = { λ _ end. end ≡ Want };

    fn from(_: AllocError) -> Self {
        End::OutOfMemory
    }
}

impl From<Failed> for End {
    ghost use Rattle.std.specs.Prelude.{◌≡◌};
    ghost use Rattle.fault_view.specs.declared.view.End.TheVariants.{CannotWrite as Unwritten};

    ghost from_gives = { λ _ end. end ≡ Unwritten };

    fn from(_: Failed) -> Self {
        End::CannotWrite
    }
}

// What a line says, where it is a fault line.
fn read_line(alloc: Global, line: &[u8]) -> Result<Option<FaultLine>, OutOfMemory>
    ensures { IfOk result (λ read. MatchOption read (IsNoFaultLine line.now) (IsReadAs line.now)) }
{
    match str::from_utf8(line) {
        Ok(text) => read_fault(alloc, text),
        Err(_) => Ok(None),
    }
}

// The note of what was read.
fn read_note<S: Store>(
    alloc: Global,
    store: &mut S,
    list: Option<&Text>,
    read: Option<FaultLine>,
) -> Result<String, OutOfMemory>
    ensures files { S.files store.new ≡ S.files store.old }
    ensures reads { S.read_faults store.old ≤ S.read_faults store.new }
    ensures exact { IfOk result (λ note. Softly (S.files store.old) (S.read_faults store.old) (S.read_faults store.new)
        (λ files. IsReadNote (option_copied list.entry) files read (string_bytes note))) }
{
    let Some(fault) = read else {
        return Ok(String::new(alloc));
    };
    let note = note(alloc, store, list, &fault)?;
    Ok(note)
}

// What stands behind a line.
fn line_note<S: Store>(
    alloc: Global,
    store: &mut S,
    list: Option<&Text>,
    line: &[u8],
) -> Result<String, OutOfMemory>
    ensures files { S.files store.new ≡ S.files store.old }
    ensures reads { S.read_faults store.old ≤ S.read_faults store.new }
    ensures exact { IfOk result (λ note. Softly (S.files store.old) (S.read_faults store.old) (S.read_faults store.new)
        (λ files. IsBehind (option_copied list.entry) files line.now (string_bytes note))) }
{
    let read = read_line(alloc, line)?;
    let note = read_note(alloc, store, list, read)?;
    Ok(note)
}

// Puts a line with what stands behind it.
fn put_line<S: Store, O: Sink>(
    alloc: Global,
    store: &mut S,
    list: Option<&Text>,
    line: Vec<u8>,
    out: &mut O,
) -> Result<(), End>
    ensures files { S.files store.new ≡ S.files store.old }
    ensures reads { S.read_faults store.old ≤ S.read_faults store.new }
    ensures puts { O.faults out.old ≤ O.faults out.new }
    ensures put { OnOk result (PutsLine (option_copied list.entry) (S.files store.old) (S.read_faults store.old)
        (S.read_faults store.new) line.items (O.bytes out.old) (O.bytes out.new)) }
    ensures part { OnErr result (PutsAtMost (option_copied list.entry) (S.files store.old) (S.read_faults store.old)
        (S.read_faults store.new) line.items (O.bytes out.old) (O.bytes out.new)) }
    ensures unwritten { IsErrOf result End.CannotWrite → Rose (O.faults out.old) (O.faults out.new) }
    ensures read { ¬ IsErrOf result End.CannotRead }
{
    let note = line_note(alloc, store, list, &line)?;
    let mut text = line;
    text.extend_from_slice(note.as_bytes())?;
    out.put(&text)?;
    Ok(())
}

// The next line with its end. At the end of the input it is empty.
fn next_line<I: Input>(alloc: Global, input: &mut I) -> Result<Vec<u8>, End>
    ensures line { IfOk result (λ line. IfSome (I.remaining input.old) (λ text. line.items ≡ take_through 10 text)) }
    ensures rest { IfOk result
        (λ line. IfSome (I.remaining input.old) (λ text. I.remaining input.new ≡ Some (drop_through 10 text))) }
    ensures later { I.faults input.old ≤ I.faults input.new }
    ensures unread { IsErrOf result End.CannotRead → Rose (I.faults input.old) (I.faults input.new) }
    ensures read { ¬ IsErrOf result End.CannotWrite }
{
    match input.next_line(alloc) {
        Ok(line) => Ok(line),
        Err(Unread::Failed) => Err(End::CannotRead),
        Err(Unread::OutOfMemory) => Err(End::OutOfMemory),
    }
}

/// Passes on all lines of the input, and puts a note behind each fault line.
pub fn view<I: Input, S: Store, O: Sink>(
    alloc: Global,
    list: Option<&Text>,
    input: &mut I,
    store: &mut S,
    out: &mut O,
) -> Result<(), End>
    ensures files { S.files store.new ≡ S.files store.old }

    // All that came in was passed on, and where no read of the store failed, exactly what is meant stands behind
    // each line.
    ensures kept { OnOk result (IfSome (I.remaining input.old)
        (λ text. WhereTold (Shows Anything text) (O.bytes out.old) (O.bytes out.new))) }
    ensures exact { OnOk result (Softly (S.files store.old) (S.read_faults store.old) (S.read_faults store.new)
        (λ files. IfSome (I.remaining input.old)
        (λ text. WhereTold (Shows (IsBehind (option_copied list.entry) files) text)
        (O.bytes out.old) (O.bytes out.new)))) }

    // Where the call ends early, that was printed up to some place.
    ensures begun { OnErr result (IfSome (I.remaining input.old)
        (λ text. WhereTold (ShowsPart Anything text) (O.bytes out.old) (O.bytes out.new))) }
    ensures part { OnErr result (Softly (S.files store.old) (S.read_faults store.old) (S.read_faults store.new)
        (λ files. IfSome (I.remaining input.old)
        (λ text. WhereTold (ShowsPart (IsBehind (option_copied list.entry) files) text)
        (O.bytes out.old) (O.bytes out.new)))) }
    ensures unread { IsErrOf result End.CannotRead
        → IsUnread (I.remaining input.old) (I.faults input.old) (I.faults input.new) }
    ensures unwritten { IsErrOf result End.CannotWrite → Rose (O.faults out.old) (O.faults out.new) }
{
    for turn in 0..u64::MAX {
        let line = next_line(alloc, input)?;
        if line.is_empty() {
            return Ok(());
        }
        put_line(alloc, store, list, line, out)?;
    }
    Err(End::CannotRead)
}

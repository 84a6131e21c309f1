ghost use Rattle.std.specs.Prelude.{◌≡◌, ◌<◌, ◌∷◌, [], ℕ, List, IfOk, IfSome, IsNone, length, map, slice_index_or};
ghost use Rattle.bp_run.specs.End.{EndsPutting, ArePrints, TryMeans, failure_line};
ghost use Rattle.bp_run.specs.Lines.{write_line};
ghost use Rattle.bp_run.specs.Puts.{ArePut, AreUnput};
ghost use Rattle.bp_run.specs.World.{world, IsSpared};

use crate::{End, Put};
use bp_faults::{OutOfMemory, Text};
use bp_ports::{Failed, Sink, Store};
use std::alloc::Global;

fn cannot_write(alloc: Global, path: &str) -> Result<Text, OutOfMemory>
    ensures { IfOk result (λ line. line ≡ write_line path.now) }
{
    Ok(Text::new(format!(in alloc; "bpgen: cannot write {path}\n")?))
}

// The line for a text that can't be put where it goes.
fn failure_line(alloc: Global, put: &Put) -> Result<Text, OutOfMemory>
    ensures { IfOk result (λ line. line ≡ failure_line put.now) }
{
    match put {
        Put::Write(path, _) => cannot_write(alloc, path.as_str()),
        Put::Print(_) => cannot_write(alloc, "standard output"),
    }
}

// The same for each of some texts.
fn failure_lines(alloc: Global, puts: &[Put]) -> Result<Vec<Text>, OutOfMemory>
    ensures { IfOk result (λ lines. lines.items ≡ map failure_line puts.now) }
{
    let mut lines = Vec::new(alloc);
    for put in puts {
        lines.push(failure_line(alloc, put)?)?;
    }
    Ok(lines)
}

// Puts a text where it goes.
fn put_one<S: Store, O: Sink>(put: &Put, store: &mut S, out: &mut O) -> Result<(), Failed>
    ensures tried { TryMeans put.now
        (world S.Store O.Sink store.old out.old) (world S.Store O.Sink store.new out.new) result }
    ensures spares { ArePrints (put.now ∷ [])
        → IsSpared (world S.Store O.Sink store.old out.old) (world S.Store O.Sink store.new out.new) }
{
    match put {
        Put::Write(path, text) => store.write(path, text.as_slice()),
        Put::Print(text) => out.put(text.as_slice()),
    }
}

// Puts texts where they go, one after another: the index of the first that can't be put.
fn put_each<S: Store, O: Sink>(puts: &[Put], store: &mut S, out: &mut O) -> Option<usize>
    ensures done { IsNone result → ArePut puts.now
        (world S.Store O.Sink store.old out.old) (world S.Store O.Sink store.new out.new) }
    ensures within { IfSome result (λ index. index < length puts.now) }
    ensures failed { IfSome result (λ index. (line : List ℕ)
        → line ≡ slice_index_or (map failure_line puts.now) index line
        → AreUnput puts.now
        (world S.Store O.Sink store.old out.old) (world S.Store O.Sink store.new out.new) line) }
    ensures spares { ArePrints puts.now
        → IsSpared (world S.Store O.Sink store.old out.old) (world S.Store O.Sink store.new out.new) }
{
    for (index, put) in puts.iter().enumerate() {
        if put_one(put, store, out).is_err() {
            return Some(index);
        }
    }
    None
}

// The line at an index.
fn line_at(mut lines: Vec<Text>, index: usize) -> Text
    requires { index < length lines.items }
    ensures { result ≡ slice_index_or lines.items index result }
{
    lines.swap_remove(index)
}

/// Puts texts where they go, one after another. The lines for failures are made first.
pub fn deliver<S: Store, O: Sink>(alloc: Global, puts: &[Put], store: &mut S, out: &mut O) -> End
    ensures ends { EndsPutting puts.now
        (world S.Store O.Sink store.old out.old) (world S.Store O.Sink store.new out.new) result }
    ensures spares { ArePrints puts.now
        → IsSpared (world S.Store O.Sink store.old out.old) (world S.Store O.Sink store.new out.new) }
{
    match failure_lines(alloc, puts) {
        Ok(lines) => match put_each(puts, store, out) {
            Some(index) => End::Write(line_at(lines, index)),
            None => End::Done,
        },
        Err(_) => End::OutOfMemory,
    }
}

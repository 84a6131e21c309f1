ghost use Rattle.std.specs.Prelude.{◌≡◌, ℕ, ◌+◌, ◌*◌, ◌≤◌, ◌<◌, List, ◌++◌, [], ◌∷◌, true, map, length, vec_len, vec_capacity};
ghost use Rattle.std.specs.Prelude.{IfOk, IfSome, IfNone};
ghost use Rattle.std.specs.Option.{option_copied};
ghost use Rattle.std.specs.Ordering.{nat_cmp, is_eq};
ghost use Rattle.std.specs.Cmp.Lexicographic.{slice_cmp};
ghost use Rattle.std.specs.FinMap.{insert};
ghost use Rattle.bp_ports.specs.Written.{need_of, total, files_after, held_after};
ghost use Rattle.bp_ports.specs.Written.{written_paths, has_texts};
ghost use Rattle.std.specs.Str.{IsUtf8};

use bp_faults::OutOfMemory;
use std::alloc::Global;
use std::cmp::Ordering;

/// A write, by the lengths of its path and of its bytes, which stand one after the other.
#[derive(Clone, Copy, Debug)]
pub struct Span {
    pub path: usize,
    pub bytes: usize,
}

/// Whether both have the same bytes.
pub fn is_same(path: &str, other: &[u8]) -> bool
    ensures { result ≡ is_eq (slice_cmp nat_cmp path.now other.now) }
{
    matches!(path.as_bytes().cmp(other), Ordering::Equal)
}

// What the path holds after the writes, if it held this before.
fn latest<'a>(spans: &[Span], run: &'a [u8], path: &str, held: Option<&'a [u8]>) -> Option<&'a [u8]>
    requires { total spans.now ≡ length run.now }
    ensures { option_copied result ≡ held_after spans.now run.now path.now (option_copied held.entry) }
{
    let mut found = held;
    let mut rest = run;
    for span in spans {
        let (name, after) = rest.split_at(span.path);
        let (bytes, next) = after.split_at(span.bytes);
        if is_same(path, name) {
            found = Some(bytes);
        }
        rest = next;
    }
    found
}

// The paths, and behind them those that were written.
fn with_written<'a>(
    mut paths: Vec<&'a str>,
    spans: &[Span],
    run: &'a [u8],
) -> Result<Vec<&'a str>, OutOfMemory>
    requires whole { total spans.now ≡ length run.now }
    requires texts { has_texts spans.now run.now ≡ true }
    ensures { IfOk result (λ all. map (λ path. path.now) all.items
        ≡ map (λ path. path.now) paths.entry.items ++ written_paths spans.now run.now) }
{
    let mut rest = run;
    for span in spans {
        let (name, after) = rest.split_at(span.path);
        let (_, next) = after.split_at(span.bytes);
        paths.push(str::from_utf8(name).unwrap())?;
        rest = next;
    }
    Ok(paths)
}

// One more write, for which there is room.
fn append(spans: &mut Vec<Span>, run: &mut Vec<u8>, path: &[u8], bytes: &[u8])
    requires whole { total spans.old.items ≡ length run.old.items }
    requires run_room { vec_len run.old + length path.now + length bytes.now ≤ vec_capacity run.old }
    requires span_room { vec_len spans.old < vec_capacity spans.old }
    ensures spans { spans.new.items ≡ spans.old.items
        ++ record { path = length path.now; bytes = length bytes.now } ∷ [] }
    ensures run { run.new.items ≡ run.old.items ++ (path.now ++ bytes.now) }
    ensures run_capacity { vec_capacity run.old ≤ vec_capacity run.new }
    ensures span_capacity { vec_capacity spans.old ≤ vec_capacity spans.new }
{
    let span = Span {
        path: path.len(),
        bytes: bytes.len(),
    };
    spans.push(span).unwrap();
    run.extend_from_slice(path).unwrap();
    run.extend_from_slice(bytes).unwrap();
}

/// Writes to files, one after another in one run of bytes, whose room was taken before the first.
#[derive(Drop)]
pub struct Writes {
    pub spans: Vec<Span>,
    pub run: Vec<u8>,
    pub room: u32,
    ghost whole: { total spans.items ≡ length run.items },
    ghost texts: { has_texts spans.items run.items ≡ true },
    ghost run_room: { vec_len run + room ≤ vec_capacity run },
    ghost span_room: { 16 * vec_len spans + room ≤ 16 * vec_capacity spans },
}

impl Writes {
    /// No write yet, and room for those to come.
    pub fn new(alloc: Global, room: u32) -> Result<Writes, OutOfMemory>
        ensures spans { IfOk result (λ writes. writes.spans.items ≡ []) }
        ensures room { IfOk result (λ writes. writes.room ≡ room) }
    {
        Ok(Writes {
            spans: Vec::with_capacity(alloc, room as usize / 16 + 1)?,
            run: Vec::with_capacity(alloc, room as usize)?,
            room,
        })
    }

    /// What the path holds after the writes, if it held this before.
    pub fn after<'a>(&'a self, path: &str, held: Option<&'a [u8]>) -> Option<&'a [u8]>
        ensures { option_copied result ≡ held_after self.now.spans.items self.now.run.items path.now
            (option_copied held.entry) }
    {
        latest(&self.spans, &self.run, path, held)
    }

    /// The paths, and behind them those that were written.
    pub fn after_paths<'a>(&'a self, paths: Vec<&'a str>) -> Result<Vec<&'a str>, OutOfMemory>
        ensures { IfOk result (λ all. map (λ path. path.now) all.items
            ≡ map (λ path. path.now) paths.entry.items ++ written_paths self.now.spans.items self.now.run.items) }
    {
        with_written(paths, &self.spans, &self.run)
    }

    /// One more write, which uses up this room.
    pub fn add(&mut self, path: &[u8], bytes: &[u8], need: u32)
        requires text { IsUtf8 path.now }
        requires need { need ≡ need_of path.now bytes.now }
        requires room { need ≤ self.old.room }
        ensures written { (files : _) → files_after self.new.spans.items self.new.run.items files
            ≡ insert (files_after self.old.spans.items self.old.run.items files) path.now bytes.now }
        ensures room { self.new.room + need ≡ self.old.room }
    {
        append(&mut self.spans, &mut self.run, path, bytes);
        self.room -= need;
    }

    /// The room that a write uses up, if it is there.
    pub fn need(&self, path: &[u8], bytes: &[u8]) -> Option<u32>
        ensures fits { IfSome result (λ need. (need ≡ need_of path.now bytes.now) × (need ≤ self.now.room)) }
        ensures lacks { IfNone result (self.now.room < need_of path.now bytes.now) }
    {
        let need = path.len().checked_add(bytes.len())?.checked_add(16)?;
        if need <= self.room as usize {
            Some(need as u32)
        } else {
            None
        }
    }
}

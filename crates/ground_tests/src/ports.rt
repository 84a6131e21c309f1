mod real_files;

use crate::rows::check_row;
use bp_faults::{NodeId, OutOfMemory, Text};
use bp_ports::{
    Failed, FreeSink, FreeStore, Gate, MemSink, MemStore, OpenGate, ReadError, Sink, StdSink, Store,
};
use std::alloc::Global;
use std::test::Fail;

fn text(alloc: Global, word: &str) -> Result<Text, OutOfMemory> {
    Text::from_str(alloc, word)
}

fn two_files(alloc: Global) -> Result<Vec<(Text, Vec<u8>)>, OutOfMemory> {
    let mut files = Vec::new(alloc);
    files.push((text(alloc, "a")?, b"one".to_vec(alloc)?))?;
    files.push((text(alloc, "b/c")?, b"four".to_vec(alloc)?))?;
    Ok(files)
}

fn reads<S: Store>(
    alloc: Global,
    store: &mut S,
    path: &str,
    limit: u64,
) -> Result<Vec<u8>, ReadError> {
    match text(alloc, path) {
        Ok(path) => store.read(alloc, &path, limit),
        Err(OutOfMemory) => Err(ReadError::OutOfMemory),
    }
}

fn writes<S: Store>(store: &mut S, path: &Text, bytes: &[u8]) -> Result<(), Failed> {
    store.write(path, bytes)
}

fn puts<K: Sink>(sink: &mut K, bytes: &[u8]) -> Result<(), Failed> {
    sink.put(bytes)
}

fn enters<G: Gate + Sync>(gate: &G) {
    gate.enter(1, NodeId(0));
}

/// A call of a store: a read of at most so many bytes, a write, or a look at what it holds.
#[derive(Clone, Copy, Debug)]
enum Call {
    Read(&'static str, u64),
    Write(&'static str, &'static str),
    Held(&'static str),
}

/// The bytes that are read, as a text, or the error.
fn shown_read<S: Store>(
    alloc: Global,
    store: &mut S,
    path: &str,
    limit: u64,
) -> Result<String, OutOfMemory> {
    match reads(alloc, store, path, limit) {
        Ok(bytes) => Ok(String::from_utf8_lossy(alloc, bytes.as_slice())?),
        Err(error) => Ok(format!(in alloc; "{error}")?),
    }
}

/// Whether the bytes of the text are written.
fn shown_write(
    alloc: Global,
    store: &mut MemStore,
    path: &str,
    word: &str,
) -> Result<String, OutOfMemory> {
    let done = writes(store, &text(alloc, path)?, word.as_bytes());
    Ok(format!(in alloc; "{done:?}")?)
}

/// The bytes that the store holds, as a text.
fn shown_held(alloc: Global, store: &MemStore, path: &str) -> Result<String, OutOfMemory> {
    match store.held(path) {
        Some(bytes) => Ok(String::from_utf8_lossy(alloc, bytes)?),
        None => Ok(String::from_str(alloc, "none")?),
    }
}

/// What a call gives, as a text.
fn shown(alloc: Global, store: &mut MemStore, call: Call) -> Result<String, OutOfMemory> {
    match call {
        Call::Read(path, limit) => shown_read(alloc, store, path, limit),
        Call::Write(path, word) => shown_write(alloc, store, path, word),
        Call::Held(path) => shown_held(alloc, store, path),
    }
}

/// A store of two files, of whose calls the second and the third fail.
fn failing_store(alloc: Global) -> Result<MemStore, OutOfMemory> {
    let failing = vec![in alloc; 2, 3]?;
    MemStore::new(alloc, two_files(alloc)?, 100, failing)
}

/// Calls in their order, and what each gives.
const CALLS: &[(Call, &str)] = &[
    (Call::Read("a", 3), "one"),
    (Call::Read("b/c", 4), "cannot read"),
    (Call::Write("a", "new"), "Err(Failed)"),
    (Call::Held("a"), "one"),
    (Call::Write("a", "new"), "Ok(())"),
    (Call::Held("a"), "new"),
    (Call::Read("b/c", 4), "four"),
    (Call::Read("b/c", 3), "file is too large"),
    (Call::Read("b", 3), "no such file"),
];

// The calls that give something else.
fn wrong_calls(
    alloc: Global,
    store: &mut MemStore,
    calls: &[(Call, &str)],
) -> Result<String, OutOfMemory> {
    let mut wrong = String::new(alloc);
    for (call, want) in calls {
        let found = shown(alloc, store, *call)?;
        check_row(&mut wrong, *call, found.as_str(), *want)?;
    }
    Ok(wrong)
}

#[test]
fn the_listed_calls_of_a_store_fail(rt: HostRuntime) -> Result<(), Fail> {
    let mut store = failing_store(rt.alloc())?;
    let wrong = wrong_calls(rt.alloc(), &mut store, CALLS)?;
    assert!(rt; wrong.is_empty(), "{wrong}");
    assert_eq!(rt; store.calls(), 7);
    Ok(())
}

/// A store of two files that has room for a path of one byte with seven.
fn small_store(alloc: Global) -> Result<MemStore, OutOfMemory> {
    MemStore::new(alloc, two_files(alloc)?, 40, Vec::new(alloc))
}

/// A write that just fits, and one that doesn't.
const WRITES: &[(Call, &str)] = &[
    (Call::Write("d", "0123456"), "Ok(())"),
    (Call::Write("d", ""), "Err(Failed)"),
    (Call::Held("d"), "0123456"),
];

#[test]
fn a_write_uses_up_room(rt: HostRuntime) -> Result<(), Fail> {
    let mut store = small_store(rt.alloc())?;
    let wrong = wrong_calls(rt.alloc(), &mut store, WRITES)?;
    assert!(rt; wrong.is_empty(), "{wrong}");
    Ok(())
}

/// Whether the bytes are written, and the store tells what it holds behind the write.
fn writes_and_tells(
    alloc: Global,
    store: &mut FreeStore,
    path: &str,
    bytes: &[u8],
) -> Result<(bool, bool), OutOfMemory> {
    let is_written = writes(store, &text(alloc, path)?, bytes).is_ok();
    Ok((is_written, store.tells()))
}

/// Whether a path of at most so many bytes holds the bytes, as it is read.
fn reads_as<S: Store>(
    alloc: Global,
    store: &mut S,
    path: &str,
    limit: u64,
    bytes: &[u8],
) -> Result<bool, ReadError> {
    Ok(reads(alloc, store, path, limit)?.as_slice() == bytes)
}

/// A store of the same files and room, in which no call fails.
fn free_store(alloc: Global) -> Result<FreeStore, OutOfMemory> {
    FreeStore::new(alloc, two_files(alloc)?, 40)
}

/// Whether a write that just fits is done and told and leaves its bytes, and whether another file is read behind it.
fn tells_first(alloc: Global, free: &mut FreeStore) -> Result<(bool, bool), Fail> {
    let first = writes_and_tells(alloc, free, "d", b"0123456")?;
    let is_held = free.held("d") == Some(b"0123456".as_slice());
    Ok((
        first == (true, true) && is_held,
        reads_as(alloc, free, "b/c", 4, b"four")?,
    ))
}

#[test]
fn a_free_store_tells_until_its_room_is_used_up(rt: HostRuntime) -> Result<(), Fail> {
    let mut free = free_store(rt.alloc())?;
    let first = tells_first(rt.alloc(), &mut free)?;
    let second = writes_and_tells(rt.alloc(), &mut free, "d", b"")?;
    assert_eq!(rt;
        (first, second, free.calls()),
        ((true, true), (true, false), 3)
    );
    Ok(())
}

/// Texts that are put, whether each is put whole, and the bytes behind it.
const PUTS: &[(&str, bool, &str)] = &[
    ("abcd", true, "abcd"),
    ("efghi", false, "abcdef"),
    ("0123456789", false, "abcdef0123"),
    ("", true, "abcdef0123"),
];

// The texts that are put otherwise.
fn wrong_puts(alloc: Global, sink: &mut MemSink) -> Result<String, OutOfMemory> {
    let mut wrong = String::new(alloc);
    for (word, is_put, behind) in PUTS {
        let found = puts(sink, word.as_bytes()).is_ok();
        let bytes = sink.bytes();
        check_row(
            &mut wrong,
            *word,
            (found, bytes),
            (*is_put, behind.as_bytes()),
        )?;
    }
    Ok(wrong)
}

#[test]
fn a_put_that_fails_appends_half(rt: HostRuntime) -> Result<(), Fail> {
    let mut sink = MemSink::new(rt.alloc(), 10, vec![in rt.alloc(); 2]?)?;
    let wrong = wrong_puts(rt.alloc(), &mut sink)?;
    assert!(rt; wrong.is_empty(), "{wrong}");
    Ok(())
}

/// Whether the bytes are put, and the sink tells its bytes behind them.
fn puts_and_tells(sink: &mut FreeSink, bytes: &[u8]) -> (bool, bool) {
    let is_put = puts(sink, bytes).is_ok();
    (is_put, sink.tells())
}

#[test]
fn a_free_sink_tells_until_its_room_is_used_up(rt: HostRuntime) -> Result<(), Fail> {
    let mut free = FreeSink::new(rt.alloc(), 3)?;
    let first = puts_and_tells(&mut free, b"abc");
    let is_held = free.bytes() == b"abc".as_slice();
    let second = puts_and_tells(&mut free, b"d");
    assert_eq!(rt;
        (first, is_held, second),
        ((true, true), true, (true, false))
    );
    Ok(())
}

#[test]
fn standard_streams_take_bytes(rt: HostRuntime) -> Result<(), Fail> {
    assert_eq!(rt;
        puts(&mut StdSink::out(rt), b"to standard output\n"),
        Ok(())
    );
    assert_eq!(rt; puts(&mut StdSink::err(rt), b"to standard error\n"), Ok(()));
    enters(&OpenGate);
    Ok(())
}

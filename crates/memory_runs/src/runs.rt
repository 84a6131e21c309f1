use crate::ended::Ended;
use crate::tree::store_of;
use bp_faults::{OutOfMemory, Text};
use bp_ports::{MemSink, MemStore, OpenGate, Sink, Store};
use bp_run::run;
use std::alloc::Global;
use std::thread::Threads;

/// Words that build a tree for one target.
pub const BUILD: &str = "build -l list -o build.ninja -t android_arm64";

/// The words of a text, which spaces part.
pub fn words_of(alloc: Global, words: &str) -> Result<Vec<Text>, OutOfMemory> {
    let mut list = Vec::new(alloc);
    for word in words.split(' ') {
        list.push(Text::from_str(alloc, word)?)?;
    }
    Ok(list)
}

/// The status of the program for some words.
pub fn status_of<R: Threads + Sync, S: Store, O: Sink, D: Sink>(
    rt: &R,
    alloc: Global,
    words: &str,
    store: &mut S,
    out: &mut O,
    diag: &mut D,
) -> Result<u8, OutOfMemory> {
    let list = words_of(alloc, words)?;
    Ok(run(rt, alloc, &list, store, out, diag, &OpenGate))
}

/// How a call ends for some words over a store, where the output and the stream for messages have so much room.
pub fn end_within<R: Threads + Sync>(
    rt: &R,
    alloc: Global,
    words: &str,
    store: &mut MemStore,
    (shown, said): (u32, u32),
) -> Result<Ended, OutOfMemory> {
    let mut out = MemSink::new(alloc, shown, Vec::new(alloc))?;
    let mut diag = MemSink::new(alloc, said, Vec::new(alloc))?;
    let status = status_of(rt, alloc, words, store, &mut out, &mut diag)?;
    Ok(Ended {
        status,
        out: out.bytes().to_vec(alloc)?,
        said: diag.bytes().to_vec(alloc)?,
    })
}

/// The same, where both have room enough.
pub fn end_of<R: Threads + Sync>(
    rt: &R,
    alloc: Global,
    words: &str,
    store: &mut MemStore,
) -> Result<Ended, OutOfMemory> {
    end_within(rt, alloc, words, store, (2000, 2000))
}

/// How a build of a tree ends, unless with status 1 and this line, and without OUT.
pub fn other_than_fault<R: Threads + Sync>(
    rt: &R,
    alloc: Global,
    tree: Vec<(Text, Vec<u8>)>,
    line: &str,
) -> Result<Option<String>, OutOfMemory> {
    let mut store = store_of(alloc, tree)?;
    let ended = end_of(rt, alloc, BUILD, &mut store)?;
    let is_unwritten = store.held("build.ninja").is_none();
    ended.unless(alloc, ended.tells(1, line) && is_unwritten)
}

/// How a build of a tree ends, unless without a message and with an OUT that ends with this text; else also what OUT
/// holds, if it isn't long.
pub fn other_than_built<R: Threads + Sync>(
    rt: &R,
    alloc: Global,
    tree: Vec<(Text, Vec<u8>)>,
    end: &str,
) -> Result<Option<String>, OutOfMemory> {
    let mut store = store_of(alloc, tree)?;
    let mut ended = end_of(rt, alloc, BUILD, &mut store)?;
    let text = store.held("build.ninja").unwrap_or_default();
    let is_right = ended.shows(0, "", "") && text.ends_with(end.as_bytes());
    if text.len() < 9000 {
        ended.out.extend_from_slice(text)?;
    }
    ended.unless(alloc, is_right)
}

//! One file, formatted or edited.

use bp_faults::OutOfMemory;
use bp_ports::MemStore;
use memory_runs::{Ended, end_of, one_file, store_of, store_that_fails};
use std::alloc::Global;
use std::test::Fail;
use std::thread::Threads;

const TEXT: &str = "cc_binary{name:\"a\",srcs:[\"x.c\",\"y.c\"],cflags:[\"-g\"],// t\n}\n";

const LAYOUT: &str = "cc_binary {
    name: \"a\",
    srcs: [
        \"x.c\",
        \"y.c\"
    ],
    cflags: [\"-g\"], // t
}
";

// A store of the file of which the words speak.
fn store_with(alloc: Global, text: &[u8]) -> Result<MemStore, OutOfMemory> {
    store_of(alloc, one_file(alloc, "Android.bp", text)?)
}

// How the words end, unless they leave this text in the file of the path, and say nothing.
fn other_than_left<R: Threads + Sync>(
    rt: &R,
    alloc: Global,
    words: &str,
    path: &str,
    text: &str,
) -> Result<Option<String>, OutOfMemory> {
    let mut store = store_with(alloc, TEXT.as_bytes())?;
    let ended = end_of(rt, alloc, words, &mut store)?;
    let is_held = store.held(path) == Some(text.as_bytes());
    let is_right = is_held && store.calls() == 2 && ended.shows(0, "", "");
    ended.unless(alloc, is_right)
}

// Whether every file is as it was.
fn is_kept(store: &MemStore, text: &[u8]) -> bool {
    store.held("Android.bp") == Some(text) && store.held("o").is_none()
}

// How the words end, unless with status 1 and this line, and every file as it was.
fn other_than_refused<R: Threads + Sync>(
    rt: &R,
    alloc: Global,
    words: &str,
    text: &[u8],
    line: &str,
) -> Result<Option<String>, OutOfMemory> {
    let mut store = store_with(alloc, text)?;
    let ended = end_of(rt, alloc, words, &mut store)?;
    ended.unless(alloc, ended.tells(1, line) && is_kept(&store, text))
}

/// Words, a path, and the text that is there then.
const LAYOUTS: &[(&str, &str, &str)] = &[
    ("fmt -i Android.bp -o Android.bp", "Android.bp", LAYOUT),
    ("fmt --out=o --in=Android.bp", "o", LAYOUT),
    ("fmt --out=o --in=Android.bp", "Android.bp", TEXT),
];

// The first words that leave another text, and how they end.
fn other_layout<R: Threads + Sync>(
    rt: &R,
    alloc: Global,
    cases: &[(&'static str, &str, &str)],
) -> Result<Option<(&'static str, String)>, OutOfMemory> {
    for (words, path, text) in cases {
        if let Some(came) = other_than_left(rt, alloc, words, path, text)? {
            return Ok(Some((*words, came)));
        }
    }
    Ok(None)
}

#[test]
fn layout(rt: HostRuntime) -> Result<(), Fail> {
    assert_eq!(rt; other_layout(&rt, rt.alloc(), LAYOUTS)?, None);
    Ok(())
}

/// The property and the items, and what the list `srcs` gives way to.
const EDITS: &[(&str, &str)] = &[
    ("-p srcs --items z.c", "srcs:[\"z.c\"],cflags:[\"-g\"]"),
    (
        "-p srcs --items=\"b\\,-O",
        "srcs:[\"\\\"b\\\\\", \"-O\"],cflags:[\"-g\"]",
    ),
    ("--property=srcs", "srcs:[],cflags:[\"-g\"]"),
];

// How the words, behind those for FILE and OUT, end, unless they make this of the lists.
fn other_than_edited<R: Threads + Sync>(
    rt: &R,
    alloc: Global,
    words: &str,
    lists: &str,
) -> Result<Option<String>, OutOfMemory> {
    let words = format!(in alloc; "edit -i Android.bp -o Android.bp -m a {words}")?;
    let text = format!(in alloc; "cc_binary{{name:\"a\",{lists},// t\n}}\n")?;
    other_than_left(rt, alloc, words.as_str(), "Android.bp", text.as_str())
}

// The first words that make something else of them, and how they end.
fn other_edit<R: Threads + Sync>(
    rt: &R,
    alloc: Global,
    cases: &[(&'static str, &str)],
) -> Result<Option<(&'static str, String)>, OutOfMemory> {
    for (words, lists) in cases {
        if let Some(came) = other_than_edited(rt, alloc, words, lists)? {
            return Ok(Some((*words, came)));
        }
    }
    Ok(None)
}

#[test]
fn list_edit(rt: HostRuntime) -> Result<(), Fail> {
    assert_eq!(rt; other_edit(&rt, rt.alloc(), EDITS)?, None);
    Ok(())
}

/// Words behind FILE and OUT, and the line of the fault that a text has then.
const FAULTS: &[(&str, &str, &str)] = &[
    (
        "fmt",
        "m{\n}}",
        "Android.bp:2:2: error 7: unexpected token: }\n",
    ),
    (
        "edit -m b -p srcs",
        TEXT,
        "Android.bp:1:1: error 41: no such module: b\n",
    ),
    (
        "edit -m a -p name",
        TEXT,
        "Android.bp:1:16: error 42: not a list: name\n",
    ),
    (
        "edit -m b -p name",
        "$",
        "Android.bp:1:1: error 2: unexpected character: $\n",
    ),
];

// The first line that isn't told so, and what came.
fn other_fault<R: Threads + Sync>(
    rt: &R,
    alloc: Global,
    cases: &[(&str, &str, &'static str)],
) -> Result<Option<(&'static str, String)>, OutOfMemory> {
    for (command, text, line) in cases {
        let words = format!(in alloc; "{command} -i Android.bp -o o")?;
        if let Some(came) = other_than_refused(rt, alloc, words.as_str(), text.as_bytes(), line)? {
            return Ok(Some((*line, came)));
        }
    }
    Ok(None)
}

#[test]
fn faults_of_a_text(rt: HostRuntime) -> Result<(), Fail> {
    assert_eq!(rt; other_fault(&rt, rt.alloc(), FAULTS)?, None);
    Ok(())
}

// A text whose layout has more than 2^20 bytes: a list of lists, of so many items.
fn wide_text(alloc: Global) -> Result<String, OutOfMemory> {
    let mut text = String::from_str(alloc, "x = ")?;
    for _ in 0..60 {
        text.push_str("[")?;
    }
    for _ in 0..5000 {
        text.push_str("1,")?;
    }
    for _ in 0..60 {
        text.push_str("]")?;
    }
    Ok(text)
}

// How `fmt` ends for a file of these bytes, unless with this line.
fn other_than_file_refused<R: Threads + Sync>(
    rt: &R,
    alloc: Global,
    bytes: &[u8],
    line: &str,
) -> Result<Option<String>, OutOfMemory> {
    other_than_refused(rt, alloc, "fmt -i Android.bp -o o", bytes, line)
}

// Whether a file at the limit, of spaces alone, gives an empty text.
fn formats_full<R: Threads + Sync>(rt: &R, alloc: Global) -> Result<bool, OutOfMemory> {
    let full = vec![in alloc; b' '; 1 << 20]?;
    let mut store = store_with(alloc, full.as_slice())?;
    let ended = end_of(rt, alloc, "fmt -i Android.bp -o o", &mut store)?;
    Ok(ended.status == 0 && store.held("o") == Some(b"".as_slice()))
}

#[test]
fn files_and_texts_that_are_too_large(rt: HostRuntime) -> Result<(), Fail> {
    let wide = wide_text(rt.alloc())?;
    let line = "Android.bp:1:1: error 40: text is too long\n";
    assert_eq!(rt;
        other_than_file_refused(&rt, rt.alloc(), wide.as_bytes(), line)?,
        None
    );
    let over = vec![in rt.alloc(); 255; (1 << 20) + 1]?;
    let line = "Android.bp:1:1: error 32: file is too large\n";
    assert_eq!(rt;
        other_than_file_refused(&rt, rt.alloc(), over.as_slice(), line)?,
        None
    );
    let line = "Android.bp:2:2: error 1: not UTF-8\n";
    assert_eq!(rt;
        other_than_file_refused(&rt, rt.alloc(), b"m{}\n \xff", line)?,
        None
    );
    assert!(rt; formats_full(&rt, rt.alloc())?);
    Ok(())
}

/// Words that read one file and write another.
const BOTH: &[&str] = &[
    "fmt -i Android.bp -o o",
    "edit -i Android.bp -o o -m a -p srcs",
];

// How words whose call of this number fails end, unless so, and with every file as it was.
fn other_than_failed<R: Threads + Sync>(
    rt: &R,
    alloc: Global,
    words: &str,
    call: u32,
    (status, line): (u8, &str),
) -> Result<Option<String>, OutOfMemory> {
    let tree = one_file(alloc, "Android.bp", TEXT.as_bytes())?;
    let mut store = store_that_fails(alloc, tree, call)?;
    let ended = end_of(rt, alloc, words, &mut store)?;
    let is_last = store.calls() == call;
    let is_right = is_last && ended.tells(status, line) && is_kept(&store, TEXT.as_bytes());
    ended.unless(alloc, is_right)
}

// How words end, unless they tell that there is no file.
fn other_than_missing<R: Threads + Sync>(
    rt: &R,
    alloc: Global,
    words: &str,
) -> Result<Option<String>, OutOfMemory> {
    let mut store = store_of(alloc, Vec::new(alloc))?;
    let ended = end_of(rt, alloc, words, &mut store)?;
    let is_right = ended.tells(1, "Android.bp:1:1: error 31: no such file\n");
    ended.unless(alloc, is_right)
}

#[test]
fn failing_store(rt: HostRuntime) -> Result<(), Fail> {
    let read = (3, "bpgen: cannot read Android.bp\n");
    let write = (4, "bpgen: cannot write o\n");
    for words in BOTH {
        assert_eq!(rt;
            other_than_failed(&rt, rt.alloc(), words, 1, read)?,
            None,
            "{words}"
        );
        assert_eq!(rt;
            other_than_failed(&rt, rt.alloc(), words, 2, write)?,
            None,
            "{words}"
        );
        assert_eq!(rt;
            other_than_missing(&rt, rt.alloc(), words)?,
            None,
            "{words}"
        );
    }
    Ok(())
}

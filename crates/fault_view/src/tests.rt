use crate::input::Counted;
use crate::view::{End, view};
use bp_faults::{OutOfMemory, Text};
use bp_ports::{MemSink, MemStore};
use std::alloc::Global;
use std::test::Fail;

/// A tree: its paths, and what stands there.
const TREE: [(&str, &str); 3] = [
    (
        "Android.bp",
        "cc_binary {\n\tname: \"app\",\n\tsrc: [],\n\t/* 漢字é */ static_libs: [\"libbse\"],\n}\n",
    ),
    (
        "lib/Android.bp",
        "cc_libary {}\nfilegroup { name: `libbase` }\nfilegroup { name: \"lbse\" }\nfilegroup { name: \"libase\" }\n\
         filegroup { name: \"libbe\" }\nfilegroup { name: \"ibbse\" }",
    ),
    ("list", "Android.bp\nlib/Android.bp\nnone/Android.bp"),
];

/// Lines that come in, the word LIST or nothing, and what is printed.
const VIEWS: [(&str, &str, &str); 9] = [
    ("", "", ""),
    (
        "ninja: no work to do.\n\nend",
        "",
        "ninja: no work to do.\n\nend",
    ),
    (
        "Android.bp:3:2: error 16: unknown property: src\n",
        "",
        "Android.bp:3:2: error 16: unknown property: src\n3 | \tsrc: [],\n  | \t^\nnearest: srcs\n",
    ),
    (
        "Android.bp:4:28: error 21: missing module: libbse\n",
        "",
        "Android.bp:4:28: error 21: missing module: libbse\n\
         4 | \t/* 漢字é */ static_libs: [\"libbse\"],\n  | \t                            ^\n",
    ),
    (
        "Android.bp:4:28: error 21: missing module: libbse\n",
        "list",
        "Android.bp:4:28: error 21: missing module: libbse\n\
         4 | \t/* 漢字é */ static_libs: [\"libbse\"],\n  | \t                            ^\n\
         nearest: libbase, libase, libbe\n",
    ),
    (
        "lib/Android.bp:1:1: error 15: unknown module type: cc_libary\nnext\n",
        "list",
        "lib/Android.bp:1:1: error 15: unknown module type: cc_libary\n1 | cc_libary {}\n  | ^\nnearest: cc_library\n\
         next\n",
    ),
    (
        "Android.bp:6:1: error 7: unexpected token: end of file\n",
        "",
        "Android.bp:6:1: error 7: unexpected token: end of file\n6 | \n  | ^\n",
    ),
    (
        "Android.bp:7:1: error 7: unexpected token\nAndroid.bp:6:2: error 7: unexpected token\n\
         Android.bp:0:1: error 7: x\n",
        "",
        "Android.bp:7:1: error 7: unexpected token\nAndroid.bp:6:2: error 7: unexpected token\n\
         Android.bp:0:1: error 7: x\n",
    ),
    (
        "none/Android.bp:1:1: error 31: no such file\nAndroid.bp:01:1: error 7: x\nAndroid.bp:1:1: error 7: x",
        "none",
        "none/Android.bp:1:1: error 31: no such file\nAndroid.bp:01:1: error 7: x\nAndroid.bp:1:1: error 7: x",
    ),
];

// A store of the tree, of whose calls some fail.
fn store(alloc: Global, failing: Vec<u32>) -> Result<MemStore, OutOfMemory> {
    let mut files = Vec::new(alloc);
    for (path, text) in TREE {
        files.push((Text::from_str(alloc, path)?, text.as_bytes().to_vec(alloc)?))?;
    }
    MemStore::new(alloc, files, 0, failing)
}

// The bytes of a sink as a text.
fn told(sink: &MemSink) -> &str {
    str::from_utf8(sink.bytes()).unwrap_or("no text")
}

#[test]
fn views(rt: HostRuntime) -> Result<(), Fail> {
    let alloc = rt.alloc();
    for (lines, list, printed) in VIEWS {
        let list = Text::from_str(alloc, list)?;
        let list = (!list.as_str().is_empty()).then_some(&list);
        let mut out = MemSink::new(alloc, 1000, Vec::new(alloc))?;
        let mut input = Counted::new(lines.as_bytes());
        let end = view(
            alloc,
            list,
            &mut input,
            &mut store(alloc, Vec::new(alloc))?,
            &mut out,
        );
        let came = told(&out);
        assert!(rt; end.is_ok() && came == printed, "{lines}: {end:?}: {came}");
    }
    Ok(())
}

/// Where the first read fails the line stands alone, and where the second fails no name is known.
#[test]
fn failing_reads(rt: HostRuntime) -> Result<(), Fail> {
    let alloc = rt.alloc();
    let line = "lib/Android.bp:2:19: error 21: missing module: libbse\n";
    for (call, note) in [
        (1, ""),
        (
            2,
            "2 | filegroup { name: `libbase` }\n  |                   ^\n",
        ),
    ] {
        let mut out = MemSink::new(alloc, 1000, Vec::new(alloc))?;
        let mut store = store(alloc, vec![in alloc; call]?)?;
        let mut input = Counted::new(line.as_bytes());
        let end = view(alloc, None, &mut input, &mut store, &mut out);
        let printed = format!(in alloc; "{line}{note}")?;
        let came = told(&out);
        assert!(rt;
            end.is_ok() && came == printed.as_str(),
            "read {call}: {end:?}: {came}"
        );
    }
    Ok(())
}

#[test]
fn failing_puts(rt: HostRuntime) -> Result<(), Fail> {
    let alloc = rt.alloc();
    let mut out = MemSink::new(alloc, 6, Vec::new(alloc))?;
    let mut input = Counted::new(b"line 1\nline 2\n".as_slice());
    let end = view(
        alloc,
        None,
        &mut input,
        &mut store(alloc, Vec::new(alloc))?,
        &mut out,
    );
    let came = told(&out);
    assert!(rt;
        end == Err(End::CannotWrite) && came == "lin",
        "{end:?}: {came}"
    );
    Ok(())
}

//! Trees that are at a limit or beyond it.

use bp_faults::{OutOfMemory, Text};
use memory_runs::{one_file, other_than_built, other_than_fault, put, tree_of};
use std::alloc::Global;
use std::test::Fail;
use std::thread::Threads;

/// 64 spaces.
const SPACES: &str = "                                                                ";

/// 64 digits.
const DIGITS: &str = "0123456701234567012345670123456701234567012345670123456701234567";

// So many texts in a row, between a first and a last text.
fn repeated(
    alloc: Global,
    first: &str,
    text: &str,
    count: usize,
    last: &str,
) -> Result<String, OutOfMemory> {
    let mut all = String::from_str(alloc, first)?;
    for _ in 0..count {
        all.push_str(text)?;
    }
    all.push_str(last)?;
    Ok(all)
}

/// A first text, a text, how often it stands there, the last text, and the line of the fault.
type Repeated = (
    &'static str,
    &'static str,
    usize,
    &'static str,
    &'static str,
);

const REPEATED: &[Repeated] = &[
    (
        "@Android.bp\nx = ",
        "{a:",
        65,
        "",
        "Android.bp:1:197: error 8: nested too deeply\n",
    ),
    (
        "@Android.bp\nx = [",
        "\"a\",",
        65_537,
        "]",
        "Android.bp:1:5: error 30: too many: list\n",
    ),
    (
        "@Android.bp\nx = [",
        "\"a\",",
        32_768,
        "]\ny = x + x + [\"a\"]",
        "Android.bp:2:11: error 30: too many: list\n",
    ),
    (
        "@Android.bp\nx = \"",
        DIGITS,
        8192,
        "\"\ny = x + x + \"a\"",
        "Android.bp:2:11: error 30: too many: string\n",
    ),
    (
        "@Android.bp\ncc_binary { name: \"a\", srcs: [",
        "\"a\",",
        65_536,
        "] }",
        "Android.bp:1:31: error 25: bad source: a\n",
    ),
    (
        "@Android.bp\n",
        SPACES,
        16_385,
        "",
        "Android.bp:1:1: error 32: file is too large\n",
    ),
];

// How a build of a tree with a text so many times ends, unless it is refused with the line.
fn other_than_repeated<R: Threads + Sync>(
    rt: &R,
    alloc: Global,
    (first, text, count, last, line): &Repeated,
) -> Result<Option<String>, OutOfMemory> {
    let tree = repeated(alloc, first, text, *count, last)?;
    other_than_fault(rt, alloc, tree_of(alloc, tree.as_str())?, line)
}

// The line of the first fault that isn't told so, and what came.
fn differing<R: Threads + Sync>(
    rt: &R,
    alloc: Global,
) -> Result<Option<(&'static str, String)>, OutOfMemory> {
    for case in REPEATED {
        if let Some(came) = other_than_repeated(rt, alloc, case)? {
            return Ok(Some((case.4, came)));
        }
    }
    Ok(None)
}

// How a build of maps at the limit of depth ends, unless they are built.
fn other_than_deep_maps<R: Threads + Sync>(
    rt: &R,
    alloc: Global,
) -> Result<Option<String>, OutOfMemory> {
    let maps = repeated(alloc, "@Android.bp\nx = ", "{a:", 63, "{}")?;
    let tree = repeated(alloc, maps.as_str(), "}", 63, "")?;
    let end = "\nbuild out/all: phony\ndefault out/all\n";
    other_than_built(rt, alloc, tree_of(alloc, tree.as_str())?, end)
}

#[test]
fn long_lists_strings_and_files(rt: HostRuntime) -> Result<(), Fail> {
    assert_eq!(rt; differing(&rt, rt.alloc())?, None);
    assert_eq!(rt; other_than_deep_maps(&rt, rt.alloc())?, None);
    Ok(())
}

/// A list of 4 MiB of spaces names no file, and one of a byte more is too large.
#[test]
fn lists_at_the_limit_and_beyond(rt: HostRuntime) -> Result<(), Fail> {
    let list = repeated(rt.alloc(), "", SPACES, 1 << 16, "")?;
    let tree = one_file(rt.alloc(), "list", list.as_bytes())?;
    let end = "\nbuild out/all: phony\ndefault out/all\n";
    assert_eq!(rt; other_than_built(&rt, rt.alloc(), tree, end)?, None);
    let list = repeated(rt.alloc(), "", SPACES, 1 << 16, " ")?;
    let tree = one_file(rt.alloc(), "list", list.as_bytes())?;
    let line = "list:1:1: error 32: file is too large\n";
    assert_eq!(rt; other_than_fault(&rt, rt.alloc(), tree, line)?, None);
    Ok(())
}

/// How a module's name begins.
const NAMED: &str = "@Android.bp\ncc_binary { name: \"";

/// A name of 255 bytes is built, and one of 256 isn't.
#[test]
fn long_names(rt: HostRuntime) -> Result<(), Fail> {
    let tree = repeated(rt.alloc(), NAMED, "abcdefghijklmno", 17, "\" }")?;
    let tree = tree_of(rt.alloc(), tree.as_str())?;
    let end = "abcdefghijklmnoabcdefghijklmno\ndefault out/all\n";
    assert_eq!(rt; other_than_built(&rt, rt.alloc(), tree, end)?, None);
    let tree = repeated(rt.alloc(), NAMED, "abcdefgh", 32, "\" }")?;
    let tree = tree_of(rt.alloc(), tree.as_str())?;
    let line = "Android.bp:1:13: error 19: bad module name: \
        abcdefghabcdefghabcdefghabcdefghabcdefghabcdefghabcdefghabcdefghabcdefghabcdefgh\n";
    assert_eq!(rt; other_than_fault(&rt, rt.alloc(), tree, line)?, None);
    Ok(())
}

/// What is written where a binary names one library, however often.
const ONE_LIBRARY: &str =
    "build out/m/app/android_arm64/bin/app: link out/m/z/android_arm64_static/bin/z.a
  target = --target=aarch64-linux-android
build out/m/z/android_arm64_static/bin/z.a: ar
build out/all: phony out/m/app/android_arm64/bin/app out/m/z/android_arm64_static/bin/z.a
default out/all
";

// A binary that names the same library so many times.
fn one_library(alloc: Global, count: usize) -> Result<Vec<(Text, Vec<u8>)>, OutOfMemory> {
    let first = "@Android.bp\ncc_binary { name: \"app\", static_libs: [";
    let last = "] }\ncc_library_static { name: \"z\" }\n";
    let tree = repeated(alloc, first, "\"z\",", count, last)?;
    tree_of(alloc, tree.as_str())
}

/// The same library so many times, and what the call comes to.
#[test]
fn one_library_many_times(rt: HostRuntime) -> Result<(), Fail> {
    let tree = one_library(rt.alloc(), 65_536)?;
    assert_eq!(rt; other_than_built(&rt, rt.alloc(), tree, ONE_LIBRARY)?, None);
    let tree = one_library(rt.alloc(), 65_537)?;
    let line = "Android.bp:1:39: error 30: too many: list\n";
    assert_eq!(rt; other_than_fault(&rt, rt.alloc(), tree, line)?, None);
    Ok(())
}

// A list of so many files, and the first `left` of these, each with so many modules.
fn many_files(
    alloc: Global,
    files: u32,
    modules: u32,
    left: u32,
) -> Result<Vec<(Text, Vec<u8>)>, OutOfMemory> {
    let mut tree = Vec::new(alloc);
    let mut list = String::new(alloc);
    for file in 0..files {
        let path = format!(in alloc; "d{file:05}/Android.bp")?;
        list.push_str(path.as_str())?;
        list.push_str("\n")?;
        if file < left {
            let text = many_modules(alloc, file, modules)?;
            put(alloc, path.as_str(), text.as_bytes(), &mut tree)?;
        }
    }
    put(alloc, "list", list.as_bytes(), &mut tree)?;
    Ok(tree)
}

fn many_modules(alloc: Global, file: u32, modules: u32) -> Result<String, OutOfMemory> {
    let mut text = String::new(alloc);
    for module in 0..modules {
        writeln!(text, "cc_binary{{name:\"m{file}_{module}\"}}")?;
    }
    Ok(text)
}

/// How many files a list names, how many modules each has, how many of them are there, and the line of the fault.
const MANY: &[(u32, u32, u32, &str)] = &[
    (16_385, 1, 0, "list:16385:1: error 30: too many: files\n"),
    (
        5,
        30_000,
        5,
        "d00004/Android.bp:11073:1: error 30: too many: modules\n",
    ),
];

// The line of the first fault that isn't told so, and what came.
fn other_line<R: Threads + Sync>(
    rt: &R,
    alloc: Global,
    cases: &[(u32, u32, u32, &'static str)],
) -> Result<Option<(&'static str, String)>, OutOfMemory> {
    for (files, modules, left, line) in cases {
        let tree = many_files(alloc, *files, *modules, *left)?;
        if let Some(came) = other_than_fault(rt, alloc, tree, line)? {
            return Ok(Some((*line, came)));
        }
    }
    Ok(None)
}

#[test]
fn many_files_and_modules(rt: HostRuntime) -> Result<(), Fail> {
    let tree = many_files(rt.alloc(), 1000, 1, 1000)?;
    assert_eq!(rt;
        other_than_built(&rt, rt.alloc(), tree, "/bin/m999_0\ndefault out/all\n")?,
        None
    );
    assert_eq!(rt; other_line(&rt, rt.alloc(), MANY)?, None);
    Ok(())
}

// 64 files of 1 MiB each, and one of one byte.
fn large_tree(alloc: Global) -> Result<Vec<(Text, Vec<u8>)>, OutOfMemory> {
    let mut tree = Vec::new(alloc);
    let mut list = String::new(alloc);
    let spaces = repeated(alloc, "", SPACES, 1 << 14, "")?;
    for number in 10..74 {
        let path = format!(in alloc; "d{number}/Android.bp")?;
        list.push_str(path.as_str())?;
        list.push_str("\n")?;
        put(alloc, path.as_str(), spaces.as_bytes(), &mut tree)?;
    }
    list.push_str("e/Android.bp\n")?;
    put(alloc, "e/Android.bp", b" ", &mut tree)?;
    put(alloc, "list", list.as_bytes(), &mut tree)?;
    Ok(tree)
}

#[test]
fn files_of_many_bytes_together(rt: HostRuntime) -> Result<(), Fail> {
    let line = "e/Android.bp:1:1: error 30: too many: bytes\n";
    let tree = large_tree(rt.alloc())?;
    assert_eq!(rt; other_than_fault(&rt, rt.alloc(), tree, line)?, None);
    Ok(())
}

// The names of so many libraries, each with a comma.
fn push_names(text: &mut String, count: u32) -> Result<(), OutOfMemory> {
    for number in 0..count {
        write!(text, "\"l{number}\",")?;
    }
    Ok(())
}

// The libraries.
fn push_libraries(text: &mut String, count: u32) -> Result<(), OutOfMemory> {
    for number in 0..count {
        writeln!(text, "cc_library_static {{ name: \"l{number}\" }}")?;
    }
    Ok(())
}

// A binary with that many libraries, the libraries, and a last text.
fn many_libraries(
    alloc: Global,
    count: u32,
    last: &str,
) -> Result<Vec<(Text, Vec<u8>)>, OutOfMemory> {
    let first = "@Android.bp\ncc_binary { name: \"app\", static_libs: [";
    let mut text = String::from_str(alloc, first)?;
    push_names(&mut text, count)?;
    text.push_str("] }\n")?;
    push_libraries(&mut text, count)?;
    text.push_str(last)?;
    tree_of(alloc, text.as_str())
}

/// What stands behind 1025 libraries, and the line of the fault.
const LONG_LINKS: &[(&str, &str)] = &[
    (
        "",
        "Android.bp:1:1: error 29: link line is too long: app{android_arm64}\n",
    ),
    (
        "cc_library_static { name: \"a\", static_libs: [\"a\"] }",
        "Android.bp:1027:46: error 23: dependency cycle: a{android_arm64_static} -> a{android_arm64_static}\n",
    ),
];

// The line of the first fault of these that isn't told so, and what came.
fn other_link<R: Threads + Sync>(
    rt: &R,
    alloc: Global,
    cases: &[(&str, &'static str)],
) -> Result<Option<(&'static str, String)>, OutOfMemory> {
    for (last, line) in cases {
        if let Some(came) = other_than_fault(rt, alloc, many_libraries(alloc, 1025, last)?, line)? {
            return Ok(Some((*line, came)));
        }
    }
    Ok(None)
}

#[test]
fn long_link_lines(rt: HostRuntime) -> Result<(), Fail> {
    let tree = many_libraries(rt.alloc(), 1024, "")?;
    assert_eq!(rt;
        other_than_built(&rt, rt.alloc(), tree, "\ndefault out/all\n")?,
        None
    );
    assert_eq!(rt; other_link(&rt, rt.alloc(), LONG_LINKS)?, None);
    Ok(())
}

// So many sources, each with a comma.
fn push_sources(text: &mut String, count: u32) -> Result<(), OutOfMemory> {
    for number in 0..count {
        write!(text, "\"s{number}.c\",")?;
    }
    Ok(())
}

/// What stands before some sources, how many there are, and what stands behind them; then a text, how often it stands
/// there, the last text, and the line of the fault.
type ManySources = (
    &'static str,
    u32,
    &'static str,
    &'static str,
    usize,
    &'static str,
    &'static str,
);

/// More text than OUT may have, since each source's statement has the flag; more edges than a graph may have, since
/// each source's variant has them; and one variant more than a graph may have, behind those of four tests.
const MANY_SOURCES: &[ManySources] = &[
    (
        "@Android.bp\ncc_binary { name: \"a\", srcs: [",
        560,
        "], cflags: [\"",
        DIGITS,
        16_000,
        "\"] }",
        "list:1:1: error 34: output is too large\n",
    ),
    (
        "@Android.bp\ncc_test { name: \"t\", test_per_src: true, srcs: [",
        65,
        "],\nstatic_libs: [",
        "\"z\",",
        65_536,
        "] }\ncc_library_static { name: \"z\" }",
        "Android.bp:2:15: error 30: too many: edges\n",
    ),
    (
        "@Android.bp\nx = [",
        65_536,
        "]\n",
        "",
        0,
        "cc_test { name: \"a\", test_per_src: true, srcs: x }\n\
            cc_test { name: \"b\", test_per_src: true, srcs: x }\n\
            cc_test { name: \"c\", test_per_src: true, srcs: x }\n\
            cc_test { name: \"d\", test_per_src: true, srcs: x }\n\
            cc_test { name: \"e\" }",
        "Android.bp:6:1: error 30: too many: variants\n",
    ),
];

// How a build of a tree with many sources ends, unless it is refused with the line.
fn other_than_sources<R: Threads + Sync>(
    rt: &R,
    alloc: Global,
    (first, sources, behind, text, count, last, line): &ManySources,
) -> Result<Option<String>, OutOfMemory> {
    let mut start = String::from_str(alloc, first)?;
    push_sources(&mut start, *sources)?;
    start.push_str(behind)?;
    let tree = repeated(alloc, start.as_str(), text, *count, last)?;
    other_than_fault(rt, alloc, tree_of(alloc, tree.as_str())?, line)
}

// The line of the first fault of these that isn't told so, and what came.
fn other_sources<R: Threads + Sync>(
    rt: &R,
    alloc: Global,
) -> Result<Option<(&'static str, String)>, OutOfMemory> {
    for case in MANY_SOURCES {
        if let Some(came) = other_than_sources(rt, alloc, case)? {
            return Ok(Some((case.6, came)));
        }
    }
    Ok(None)
}

#[test]
fn many_sources(rt: HostRuntime) -> Result<(), Fail> {
    assert_eq!(rt; other_sources(&rt, rt.alloc())?, None);
    Ok(())
}

//! Trees with faults, and the line that reports the first of them.

use bp_faults::OutOfMemory;
use memory_runs::{one_file, other_than_fault, tree_of};
use std::alloc::Global;
use std::test::Fail;
use std::thread::Threads;

/// A tree, as `tree_of` reads it, and the line.
const FAULTS: &[(&str, &str)] = &[
    (
        "@../x/Android.bp\n",
        "list:1:1: error 33: bad path in list: ../x/Android.bp\n",
    ),
    (
        "@Android.bp\n@é\n",
        "list:2:1: error 33: bad path in list: é\n",
    ),
    (
        "@Android.bp\nb = \"x",
        "Android.bp:1:5: error 3: unterminated string\n",
    ),
    (
        "@Android.bp\nb = \"x\\q\"",
        "Android.bp:1:7: error 5: bad escape: q\n",
    ),
    (
        "@Android.bp\nb = 9223372036854775808",
        "Android.bp:1:5: error 6: number out of range: 9223372036854775808\n",
    ),
    (
        "@Android.bp\nb = 1000000000000000000000000000000",
        "Android.bp:1:5: error 6: number out of range: 1000000000000000000000000000000\n",
    ),
    (
        "@Android.bp\n/* x",
        "Android.bp:1:1: error 4: unterminated comment\n",
    ),
    (
        "@Android.bp\ncc_binary { name \"x\" }",
        "Android.bp:1:18: error 7: unexpected token: \"x\"\n",
    ),
    (
        "@Android.bp\ncc_binary {",
        "Android.bp:1:12: error 7: unexpected token: end of file\n",
    ),
    (
        "@Android.bp\nx = { a: 1, a: 2 }",
        "Android.bp:1:13: error 9: duplicate property: a\n",
    ),
    (
        "@Android.bp\nb = 9223372036854775807 + 1",
        "Android.bp:1:25: error 14: cannot add: integer + integer\n",
    ),
    (
        "@Android.bp\nb = true + true",
        "Android.bp:1:10: error 14: cannot add: bool + bool\n",
    ),
    (
        "@Android.bp\nb = [\"a\"] + \"a\"",
        "Android.bp:1:11: error 14: cannot add: list + string\n",
    ),
    (
        "@Android.bp\nb = {a: {c: 1}} + {a: {c: \"1\"}}",
        "Android.bp:1:17: error 14: cannot add: integer + string\n",
    ),
    (
        "@Android.bp\nx = [1]",
        "Android.bp:1:6: error 17: wrong type: list item\n",
    ),
    (
        "@Android.bp\nx = [\"a\"]\ny = x\nx += [\"b\"]\n",
        "Android.bp:3:1: error 13: variable was already used: x\n",
    ),
    (
        "@Android.bp\nx = \"a\"\nx = \"b\"\n",
        "Android.bp:2:1: error 11: variable is already set: x\n",
    ),
    (
        "@Android.bp\ncc_binary { name: \"..\" }",
        "Android.bp:1:13: error 19: bad module name: ..\n",
    ),
    (
        "@Android.bp\ncc_binary { nam: \"x\" }",
        "Android.bp:1:13: error 16: unknown property: nam\n",
    ),
    (
        "@Android.bp\ncc_binary { srcs: \"x.c\" }",
        "Android.bp:1:13: error 17: wrong type: srcs\n",
    ),
    (
        "@Android.bp\ncc_binary { name: \"a\", compile_multilib: \"all\" }",
        "Android.bp:1:24: error 26: bad value: compile_multilib\n",
    ),
    (
        "@Android.bp\ncc_binary { name: \"a\", srcs: [\"../x.c\"] }",
        "Android.bp:1:31: error 27: bad path: ../x.c\n",
    ),
    (
        "@Android.bp\ncc_binary { }",
        "Android.bp:1:1: error 18: module without a name: cc_binary\n",
    ),
    (
        "@Android.bp\njava_library { name: \"x\" }",
        "Android.bp:1:1: error 15: unknown module type: java_library\n",
    ),
    (
        "@Android.bp\nflags = [\"-Wall\"]\n@a/Android.bp\nflags += [\"-O2\"]\n",
        "a/Android.bp:1:1: error 12: variable is inherited: flags\n",
    ),
    (
        "@a/Android.bp\nx = \"1\"\n@b/Android.bp\ny = x\n",
        "b/Android.bp:1:5: error 10: unknown variable: x\n",
    ),
    (
        "@a/Android.bp\nx = [1]@b/Android.bp\n/* x",
        "b/Android.bp:1:1: error 4: unterminated comment\n",
    ),
    (
        "@a/Android.bp\n@b/Android.bp\n@c/Android.bp\ncc_binary { name: 1 }",
        "c/Android.bp:1:13: error 17: wrong type: name\n",
    ),
    (
        "@a/Android.bp\ncc_binary { name: \"a\" }@b/Android.bp\n@c/Android.bp\ncc_binary { name: \"a\" }",
        "c/Android.bp:1:13: error 20: duplicate module name: a\n",
    ),
    (
        "@a/Android.bp\ncc_binary { name: \"a\" }@b/Android.bp\ncc_binary { name: \"b\", static_libs: [\"z\"] }",
        "b/Android.bp:1:38: error 21: missing module: z\n",
    ),
    (
        "@a/Android.bp\ncc_binary { name: \"a\" }@b/Android.bp\ncc_binary { name: \"b\", srcs: [\"z\"] }",
        "b/Android.bp:1:31: error 25: bad source: b/z\n",
    ),
    (
        "@a/Android.bp\ncc_library_static { name: \"a\", static_libs: [\"b\"] }@b/Android.bp\n\
            cc_library_static { name: \"b\", static_libs: [\"a\"] }",
        "a/Android.bp:1:46: error 23: dependency cycle: a{android_arm64_static} -> b{android_arm64_static} -> \
            a{android_arm64_static}\n",
    ),
    (
        "@Android.bp\ncc_binary { name: \"a\", static_libs: [\"b\"] }\ncc_binary { name: \"b\" }",
        "Android.bp:1:38: error 24: missing variant: b{android_arm64_static}\n",
    ),
    (
        "@Android.bp\ncc_binary { name: \"a\", static_libs: [\"\\t\"] }",
        "Android.bp:1:38: error 21: missing module: ?\n",
    ),
    (
        "@Android.bp\ncc_binary { name: \"a\" }\ncc_binary { name: \"a\", static_libs: [\"x\"] }",
        "Android.bp:2:13: error 20: duplicate module name: a\n",
    ),
    (
        "@Android.bp\ncc_library_static { name: \"a\", static_libs: [\"a\"] }\n\
            cc_binary { name: \"b\", static_libs: [\"x\"] }",
        "Android.bp:2:38: error 21: missing module: x\n",
    ),
    (
        "@Android.bp\ncc_library_static { name: \"a\", static_libs: [\"a\"] }\n\
            cc_binary { name: \"b\", static_libs: [\"b\"] }",
        "Android.bp:2:38: error 24: missing variant: b{android_arm64_static}\n",
    ),
    (
        "@Android.bp\ncc_binary { name: \"b\", srcs: [\"b\"] }\n\
            cc_library_static { name: \"a\", static_libs: [\"a\"] }",
        "Android.bp:2:46: error 23: dependency cycle: a{android_arm64_static} -> a{android_arm64_static}\n",
    ),
];

// The first tree that isn't refused so, and what came.
fn differing<R: Threads + Sync>(
    rt: &R,
    alloc: Global,
    cases: &[(&'static str, &str)],
) -> Result<Option<(&'static str, String)>, OutOfMemory> {
    for (tree, line) in cases {
        if let Some(came) = other_than_fault(rt, alloc, tree_of(alloc, tree)?, line)? {
            return Ok(Some((*tree, came)));
        }
    }
    Ok(None)
}

#[test]
fn the_first_fault_is_reported(rt: HostRuntime) -> Result<(), Fail> {
    assert_eq!(rt; differing(&rt, rt.alloc(), FAULTS)?, None);
    let tree = one_file(rt.alloc(), "list", b"\xff")?;
    let line = "list:1:1: error 1: not UTF-8\n";
    assert_eq!(rt; other_than_fault(&rt, rt.alloc(), tree, line)?, None);
    Ok(())
}

//! The worked examples that one call shows, by their names.

use bp_faults::OutOfMemory;
use memory_runs::{BUILD, DEMO_TREE, Ended, end_of, store_of, tree_of};
use std::alloc::Global;
use std::str;
use std::test::Fail;
use std::thread::Threads;

const ONE_LIBRARY_THREE_EDGES: &str = r#"@Android.bp
cc_binary { name: "app", srcs: ["app.c"], whole_static_libs: ["z"], static_libs: ["z", "z"] }
cc_library_static { name: "z", srcs: ["z.c"] }
"#;

const DIAMOND: &str = r#"@Android.bp
cc_binary { name: "app", srcs: ["app.c"], static_libs: ["l", "r"] }
cc_library_static { name: "l", srcs: ["l.c"], static_libs: ["base"] }
cc_library_static { name: "r", srcs: ["r.c"], static_libs: ["base"] }
cc_library_static { name: "base", srcs: ["base.c"] }
"#;

const REVERSE_CYCLE: &str = r#"@Android.bp
cc_library_shared { name: "host" }
cc_library_shared { name: "p", shared_libs: ["host"], plugin_of: ["host"] }
"#;

const WANTED_TWICE: &str = r#"@Android.bp
cc_binary { name: "app1", static_libs: ["z"] }
cc_binary { name: "app2", static_libs: ["z"], sanitize: { address: true } }
cc_library_static { name: "z" }
"#;

const DISABLED_IN_CYCLE: &str = r#"@Android.bp
cc_library_static { name: "a" }
cc_library_static { name: "b", enabled: false, static_libs: ["a"] }
"#;

const DEFAULTS_GRAPH: &str = "@Android.bp
cc_defaults { name: \"d0\", cflags: [\"-A\"], host_supported: true }
cc_defaults { name: \"d1\", defaults: [\"d0\"], cflags: [\"-B\"], compile_multilib: \"both\" }
cc_binary { name: \"app\", defaults: [\"d1\"], srcs: [\"a.c\"], cflags: [\"-C\"], compile_multilib: \"first\", \
    host_supported: false }
";

const DEFAULTS_CHAIN: &str = r#"@Android.bp
cc_binary { name: "app" }
cc_binary { name: "b", defaults: ["app"] }
"#;

/// The name, a tree as `tree_of` reads it, the words, the status, and what the call gives: the parts that stand in what
/// `build` writes, each behind `@`, all that `graph` shows, or the line of the fault.
type Example = (&'static str, &'static str, &'static str, u8, &'static str);

const EXAMPLES: &[Example] = &[
    (
        "empty_list",
        "",
        BUILD,
        0,
        "@build out/all: phony
default out/all
",
    ),
    (
        "one_library_three_edges",
        ONE_LIBRARY_THREE_EDGES,
        "graph -l list -t android_arm64 -a info",
        0,
        "0 app android_arm64
  whole 1
  static 1
  static 1
1 z android_arm64_static
",
    ),
    (
        "one_library_three_edges",
        ONE_LIBRARY_THREE_EDGES,
        BUILD,
        0,
        "@build out/m/app/android_arm64/bin/app: link out/m/app/android_arm64/obj/app.c.o \
    out/m/z/android_arm64_static/obj/z.c.o out/m/z/android_arm64_static/bin/z.a
",
    ),
    (
        "diamond",
        DIAMOND,
        BUILD,
        0,
        "@build out/m/app/android_arm64/bin/app: link out/m/app/android_arm64/obj/app.c.o \
    out/m/l/android_arm64_static/bin/l.a out/m/r/android_arm64_static/bin/r.a out/m/base/android_arm64_static/bin/base.a
@build out/m/base/android_arm64_static/obj/base.c.o: cc base.c
  target = --target=aarch64-linux-android
  cflags = -fPIC
",
    ),
    (
        "diamond",
        DIAMOND,
        "graph -l list -t android_arm64 -a info",
        0,
        "0 app android_arm64
  static 1
  static 2
1 l android_arm64_static
  static 3
2 r android_arm64_static
  static 3
3 base android_arm64_static
",
    ),
    (
        "two_faults",
        r#"@Android.bp
cc_binary { name: "app", srcs: ["x.c", "x.c"], static_libs: ["ok"] }
cc_library_static { name: "ok", srcs: ["ok.c"] }
cc_library_static { name: "z", srcs: ["z.txt"] }
"#,
        BUILD,
        1,
        "Android.bp:3:39: error 25: bad source: z.txt
",
    ),
    (
        "two_faults",
        r#"@Android.bp
cc_binary { name: "app", srcs: ["x.c", "x.c"], static_libs: ["ok"] }
cc_library_static { name: "ok", srcs: ["ok.c"] }
"#,
        BUILD,
        1,
        "Android.bp:1:40: error 28: duplicate source: x.c
",
    ),
    (
        "cycles",
        r#"@Android.bp
cc_library_static { name: "a", static_libs: ["b"] }
cc_library_static { name: "b", static_libs: ["c", "a"] }
cc_library_static { name: "c", static_libs: ["a"] }
"#,
        BUILD,
        1,
        "Android.bp:1:46: error 23: dependency cycle: a{android_arm64_static} -> b{android_arm64_static} -> \
    a{android_arm64_static}
",
    ),
    (
        "cycles",
        r#"@Android.bp
cc_library_static { name: "a", static_libs: ["a"] }
"#,
        BUILD,
        1,
        "Android.bp:1:46: error 23: dependency cycle: a{android_arm64_static} -> a{android_arm64_static}
",
    ),
    (
        "reverse_cycle",
        REVERSE_CYCLE,
        "graph -l list -t android_arm64 -a deps",
        0,
        "0 host android_arm64_shared
1 p android_arm64_shared
  shared 0
",
    ),
    (
        "reverse_cycle",
        REVERSE_CYCLE,
        "graph -l list -t android_arm64 -a plugins",
        1,
        "Android.bp:2:67: error 23: dependency cycle: host{android_arm64_shared} -> p{android_arm64_shared} -> \
    host{android_arm64_shared}
",
    ),
    (
        "reverse_cycle",
        REVERSE_CYCLE,
        BUILD,
        1,
        "Android.bp:2:67: error 23: dependency cycle: host{android_arm64_shared} -> p{android_arm64_shared} -> \
    host{android_arm64_shared}
",
    ),
    (
        "reverse_cycle",
        r#"@Android.bp
cc_library_shared { name: "host" }
cc_library_shared { name: "p", plugin_of: ["host"] }
"#,
        "graph -l list -t android_arm64 -a plugins",
        0,
        "0 host android_arm64_shared
  shared 1
1 p android_arm64_shared
",
    ),
    (
        "wanted_twice",
        WANTED_TWICE,
        "graph -l list -t android_arm64 -a sanitize",
        0,
        "0 app1 android_arm64
  static 2
1 app2 android_arm64_asan
  static 3
2 z android_arm64_static
3 z android_arm64_static_asan
",
    ),
    (
        "wanted_twice",
        WANTED_TWICE,
        BUILD,
        0,
        "@build out/m/app2/android_arm64_asan/bin/app2: link out/m/z/android_arm64_static_asan/bin/z.a
  target = --target=aarch64-linux-android
  ldflags = -fsanitize=address
",
    ),
    (
        "wanted_twice",
        r#"@Android.bp
cc_binary { name: "app1", static_libs: ["z"] }
cc_binary { name: "app2", static_libs: ["z"], sanitize: { address: true } }
cc_library_static { name: "z", sanitize: { never: true } }
"#,
        "graph -l list -t android_arm64 -a sanitize",
        0,
        "0 app1 android_arm64
  static 2
1 app2 android_arm64_asan
  static 2
2 z android_arm64_static
",
    ),
    (
        "missing_variant",
        r#"@Android.bp
cc_binary { name: "app", vendor: true, static_libs: ["z"] }
cc_library_static { name: "z" }
"#,
        BUILD,
        1,
        "Android.bp:1:54: error 24: missing variant: z{android_arm64_vendor_static}
",
    ),
    (
        "missing_variant",
        r#"@Android.bp
cc_binary { name: "app", vendor: true, static_libs: ["z"] }
cc_library_static { name: "z", vendor_available: true }
"#,
        BUILD,
        0,
        "",
    ),
    (
        "missing_variant",
        r#"@Android.bp
cc_binary { name: "app", vendor: true, static_libs: ["z"] }
"#,
        BUILD,
        1,
        "Android.bp:1:54: error 21: missing module: z
",
    ),
    (
        "disabled_in_cycle",
        r#"@Android.bp
cc_library_static { name: "a", static_libs: ["b"] }
cc_library_static { name: "b", enabled: false, static_libs: ["a"] }
"#,
        BUILD,
        1,
        "Android.bp:1:46: error 24: missing variant: b{android_arm64_static}
",
    ),
    ("disabled_in_cycle", DISABLED_IN_CYCLE, BUILD, 0, ""),
    (
        "disabled_in_cycle",
        DISABLED_IN_CYCLE,
        "graph -l list -t android_arm64 -a arch",
        0,
        "0 a android_arm64
",
    ),
    (
        "defaults_graph",
        DEFAULTS_GRAPH,
        "graph -l list -t android_arm64 -a defaults",
        0,
        "0 d0 -
1 d1 -
  defaults 0
2 app -
  defaults 1
",
    ),
    (
        "defaults_chain",
        DEFAULTS_GRAPH,
        "graph -l list -a arch",
        0,
        "0 app android_arm64
",
    ),
    (
        "defaults_chain",
        DEFAULTS_GRAPH,
        "build -l list -o build.ninja",
        0,
        "@build out/m/app/android_arm64/obj/a.c.o: cc a.c
  target = --target=aarch64-linux-android
  cflags = -A -B -C
",
    ),
    (
        "defaults_chain",
        DEFAULTS_CHAIN,
        "graph -l list -t android_arm64 -a defaults",
        1,
        "Android.bp:2:35: error 22: not a defaults module: app
",
    ),
    (
        "defaults_chain",
        DEFAULTS_CHAIN,
        BUILD,
        1,
        "Android.bp:2:35: error 22: not a defaults module: app
",
    ),
    (
        "two_defaults",
        r#"@Android.bp
cc_defaults { name: "d", min_sdk_version: "21", arch: { arm64: { cflags: ["-A"] } } }
cc_defaults { name: "e", min_sdk_version: "29", arch: { arm64: { cflags: ["-B"] } } }
cc_binary { name: "x", defaults: ["d", "e"], srcs: ["x.c"], arch: { arm64: { cflags: ["-C"] } } }
"#,
        BUILD,
        0,
        "@  cflags = -A -B -C -DMIN_SDK=21
",
    ),
    (
        "escapes",
        r#"@Android.bp
cc_binary { name: "x", srcs: ["a b:$.c"], cflags: [" -X"] }
"#,
        BUILD,
        0,
        "@build out/m/x/android_arm64/obj/a$ b$:$$.c.o: cc a$ b$:$$.c
  target = --target=aarch64-linux-android
  cflags = $ -X
",
    ),
    (
        "escapes",
        r#"@Android.bp
cc_binary { name: "x", srcs: ["a b:$.c"], cflags: ["-D$"] }
"#,
        BUILD,
        0,
        "@  cflags = -D$$
build ",
    ),
    (
        "demo_tree",
        DEMO_TREE,
        "graph -l list -t android_arm64,linux_glibc_x86_64 -a info",
        0,
        "0 libdemo android_arm64_static
  shared 4
1 libdemo android_arm64_shared
  shared 4
2 libdemo linux_glibc_x86_64_static
  shared 5
3 libdemo linux_glibc_x86_64_shared
  shared 5
4 liblog android_arm64_shared
5 liblog linux_glibc_x86_64_shared
6 demo android_arm64
  static 0
  shared 4
7 demo_test android_arm64_t1
  static 0
  shared 4
  data 6
8 demo_test android_arm64_t2
  static 0
  shared 4
  data 6
",
    ),
    (
        "demo_tree",
        DEMO_TREE,
        "build -l list -o build.ninja -t android_arm64,linux_glibc_x86_64",
        0,
        "@build out/m/demo/android_arm64/obj/demo/main.cpp.o: cxx demo/main.cpp
  target = --target=aarch64-linux-android
  cflags = -Wall -Werror -DARM64
  includes = -Idemo/include
build out/m/demo/android_arm64/bin/demo: link out/m/demo/android_arm64/obj/demo/main.cpp.o \
    out/m/libdemo/android_arm64_static/bin/libdemo.a out/m/liblog/android_arm64_shared/bin/liblog.so
  target = --target=aarch64-linux-android
@ || out/m/demo/android_arm64/bin/demo
@build out/m/libdemo/android_arm64_static/obj/demo/demo.cpp.o: cxx demo/demo.cpp
@build out/m/libdemo/android_arm64_static/obj/demo/android.cpp.o: cxx demo/android.cpp
@build out/m/libdemo/linux_glibc_x86_64_static/obj/demo/demo.cpp.o: cxx demo/demo.cpp
",
    ),
    (
        "levels",
        r#"@Android.bp
cc_binary { name: "app", min_sdk_version: "29", static_libs: ["z"] }
cc_library_static { name: "z", srcs: ["z.c"] }
"#,
        BUILD,
        0,
        "@cc z.c
  target = --target=aarch64-linux-android
  cflags = -fPIC -DMIN_SDK=29
",
    ),
    (
        "ten_variants",
        r#"@Android.bp
cc_library { name: "z", vendor_available: true, host_supported: true }
"#,
        "graph -l list -a link",
        0,
        "0 z android_arm64_static
1 z android_arm64_shared
2 z android_arm64_vendor_static
3 z android_arm64_vendor_shared
4 z android_arm_static
5 z android_arm_shared
6 z android_arm_vendor_static
7 z android_arm_vendor_shared
8 z linux_glibc_x86_64_static
9 z linux_glibc_x86_64_shared
",
    ),
    (
        "per_source_edges",
        r#"@Android.bp
cc_test { name: "a", srcs: ["x.c", "y.c"], test_per_src: true, data_bins: ["b"] }
cc_test { name: "b", srcs: ["z.c", "w.c"], test_per_src: true }
"#,
        "graph -l list -t android_arm64 -a per_src",
        0,
        "0 a android_arm64_t1
  data 2
1 a android_arm64_t2
  data 3
2 b android_arm64_t1
3 b android_arm64_t2
",
    ),
    (
        "first_parse_fault",
        "@a/Android.bp
x = [1]@b/Android.bp
/* x@c/Android.bp
y = $",
        BUILD,
        1,
        "b/Android.bp:1:1: error 4: unterminated comment
",
    ),
];

// Whether each part of an example stands in a text.
fn has_parts(text: &[u8], parts: &str) -> bool {
    match str::from_utf8(text) {
        Ok(text) => parts.split('@').all(|part| text.contains(part)),
        Err(_) => false,
    }
}

// Whether a call has told what an example gives, where this is written.
fn is_given(ended: &Ended, written: Option<&[u8]>, words: &str, gives: &str) -> bool {
    match (ended.status, words.starts_with("graph")) {
        (1, _) => ended.said.as_slice() == gives.as_bytes() && written.is_none(),
        (_, true) => ended.out.as_slice() == gives.as_bytes() && written.is_none(),
        (_, false) => has_parts(written.unwrap_or_default(), gives),
    }
}

// How a call over a tree ends, with what OUT holds, unless it comes to what an example says.
fn other_end<R: Threads + Sync>(
    rt: &R,
    alloc: Global,
    (_, tree, words, status, gives): &Example,
) -> Result<Option<String>, OutOfMemory> {
    let mut store = store_of(alloc, tree_of(alloc, tree)?)?;
    let mut ended = end_of(rt, alloc, words, &mut store)?;
    let written = store.held("build.ninja");
    let is_right = ended.status == *status && is_given(&ended, written, words, gives);
    ended.out.extend_from_slice(written.unwrap_or_default())?;
    ended.unless(alloc, is_right)
}

// The name of the first example that comes to something else, and to what.
fn differing<R: Threads + Sync>(
    rt: &R,
    alloc: Global,
) -> Result<Option<(&'static str, String)>, OutOfMemory> {
    for example in EXAMPLES {
        if let Some(came) = other_end(rt, alloc, example)? {
            return Ok(Some((example.0, came)));
        }
    }
    Ok(None)
}

#[test]
fn worked_examples(rt: HostRuntime) -> Result<(), Fail> {
    assert_eq!(rt; differing(&rt, rt.alloc())?, None);
    Ok(())
}

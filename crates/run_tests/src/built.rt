//! Trees without faults, and the text that is written.

use bp_faults::OutOfMemory;
use bp_ports::{FreeSink, FreeStore};
use memory_runs::{BUILD, end_of, one_file, other_than_built, put, status_of, store_of, tree_of};
use std::alloc::Global;
use std::test::Fail;
use std::thread::Threads;

/// The fixed head, and the statements of *plain_start*.
pub const WRITTEN: &str = "# build.ninja written by bpgen
rule cc
  command = clang ${target} ${cflags} ${includes} -MD -MF ${out}.d -c ${in} -o ${out}
  description = CC ${out}
  depfile = ${out}.d
  deps = gcc
rule cxx
  command = clang++ ${target} ${cflags} ${includes} -MD -MF ${out}.d -c ${in} -o ${out}
  description = CXX ${out}
  depfile = ${out}.d
  deps = gcc
rule as
  command = clang ${target} ${cflags} ${includes} -c ${in} -o ${out}
  description = AS ${out}
rule ar
  command = rm -f ${out} && llvm-ar rcs ${out} ${in}
  description = AR ${out}
rule link
  command = clang++ ${target} ${in} ${ldflags} -o ${out}
  description = LINK ${out}
rule solink
  command = clang++ -shared ${target} ${in} ${ldflags} -o ${out}
  description = SOLINK ${out}
build out/m/hello/android_arm64/obj/hello.c.o: cc hello.c
  target = --target=aarch64-linux-android
build out/m/hello/android_arm64/bin/hello: link out/m/hello/android_arm64/obj/hello.c.o
  target = --target=aarch64-linux-android
build out/all: phony out/m/hello/android_arm64/bin/hello
default out/all
";

/// What ends the text where nothing is built.
const EMPTY: &str = "  description = SOLINK ${out}\nbuild out/all: phony\ndefault out/all\n";

/// The statements of a binary over two libraries that stand over one.
const DIAMOND: &str = "build out/m/app/android_arm64/obj/app.c.o: cc app.c
  target = --target=aarch64-linux-android
build out/m/app/android_arm64/bin/app: link out/m/app/android_arm64/obj/app.c.o out/m/l/android_arm64_static/bin/l.a \
    out/m/r/android_arm64_static/bin/r.a out/m/base/android_arm64_static/bin/base.a
  target = --target=aarch64-linux-android
build out/m/l/android_arm64_static/obj/l.c.o: cc l.c
  target = --target=aarch64-linux-android
  cflags = -fPIC
build out/m/l/android_arm64_static/bin/l.a: ar out/m/l/android_arm64_static/obj/l.c.o
build out/m/r/android_arm64_static/obj/r.c.o: cc r.c
  target = --target=aarch64-linux-android
  cflags = -fPIC
build out/m/r/android_arm64_static/bin/r.a: ar out/m/r/android_arm64_static/obj/r.c.o
build out/m/base/android_arm64_static/obj/base.c.o: cc base.c
  target = --target=aarch64-linux-android
  cflags = -fPIC
build out/m/base/android_arm64_static/bin/base.a: ar out/m/base/android_arm64_static/obj/base.c.o
build out/all: phony out/m/app/android_arm64/bin/app out/m/l/android_arm64_static/bin/l.a \
    out/m/r/android_arm64_static/bin/r.a out/m/base/android_arm64_static/bin/base.a
default out/all
";

/// The statements of a binary whose library names an earlier module.
const EARLIER: &str = "build out/m/base/android_arm64_static/obj/base.c.o: cc base.c
  target = --target=aarch64-linux-android
  cflags = -fPIC
build out/m/base/android_arm64_static/bin/base.a: ar out/m/base/android_arm64_static/obj/base.c.o
build out/m/app/android_arm64/bin/app: link out/m/l/android_arm64_static/bin/l.a \
    out/m/base/android_arm64_static/bin/base.a
  target = --target=aarch64-linux-android
build out/m/l/android_arm64_static/bin/l.a: ar
build out/all: phony out/m/base/android_arm64_static/bin/base.a out/m/app/android_arm64/bin/app \
    out/m/l/android_arm64_static/bin/l.a
default out/all
";

/// A tree, as `tree_of` reads it, and the end of what is written.
const BUILT: &[(&str, &str)] = &[
    ("", EMPTY),
    ("@Android.bp\n// x", EMPTY),
    ("@Android.bp\nb = -9223372036854775808", EMPTY),
    (
        "@Android.bp\ncc_binary {\n    name: \"hello\",\n    srcs: [\"hello.c\"],\n}\n",
        WRITTEN,
    ),
    (
        "@a/Android.bp\ncc_binary {\n    name: \"hello\",\n    srcs: [\"hello.c\"],\n}\n",
        "build out/m/hello/android_arm64/obj/a/hello.c.o: cc a/hello.c\n  target = --target=aarch64-linux-android\n\
            build out/m/hello/android_arm64/bin/hello: link out/m/hello/android_arm64/obj/a/hello.c.o\n  \
            target = --target=aarch64-linux-android\nbuild out/all: phony out/m/hello/android_arm64/bin/hello\n\
            default out/all\n",
    ),
    (
        "@Android.bp\ncc_binary { name: \"a\" }",
        "build out/m/a/android_arm64/bin/a: link\n  target = --target=aarch64-linux-android\n\
            build out/all: phony out/m/a/android_arm64/bin/a\ndefault out/all\n",
    ),
    (
        "@Android.bp\npackage { default_applicable_licenses: [\"demo_license\"] }\n\
            license { name: \"demo_license\", license_kinds: [\"SPDX-license-identifier-Apache-2.0\"] }\n\
            cc_binary { name: \"hello\", srcs: [\"hello.c\"], arch: {}, target: { android: {} }, stl: \"none\" }\n",
        WRITTEN,
    ),
    (
        "@Android.bp\nn = \"a\" + \"b\" + \"c\"\ncc_binary { name: n, srcs: [\"x.c\"] + [\"y.c\"] }",
        "build out/m/abc/android_arm64/obj/x.c.o: cc x.c\n  target = --target=aarch64-linux-android\n\
            build out/m/abc/android_arm64/obj/y.c.o: cc y.c\n  target = --target=aarch64-linux-android\n\
            build out/m/abc/android_arm64/bin/abc: link out/m/abc/android_arm64/obj/x.c.o \
            out/m/abc/android_arm64/obj/y.c.o\n  target = --target=aarch64-linux-android\n\
            build out/all: phony out/m/abc/android_arm64/bin/abc\ndefault out/all\n",
    ),
    (
        "@Android.bp\ns = [\"x.c\"]\ns += [\"y.c\"]\nn = \"a\"\nn += \"b\"\nk = 1 + 2\nk += 3\n\
            cc_binary { name: n, srcs: s }",
        "build out/m/ab/android_arm64/obj/x.c.o: cc x.c\n  target = --target=aarch64-linux-android\n\
            build out/m/ab/android_arm64/obj/y.c.o: cc y.c\n  target = --target=aarch64-linux-android\n\
            build out/m/ab/android_arm64/bin/ab: link out/m/ab/android_arm64/obj/x.c.o \
            out/m/ab/android_arm64/obj/y.c.o\n  target = --target=aarch64-linux-android\n\
            build out/all: phony out/m/ab/android_arm64/bin/ab\ndefault out/all\n",
    ),
    (
        "@Android.bp\nt = { android: {}, not_windows: {} } + { android: {}, linux: {} }\n\
            cc_binary { name: \"a\", target: t }",
        "build out/m/a/android_arm64/bin/a: link\n  target = --target=aarch64-linux-android\n\
            build out/all: phony out/m/a/android_arm64/bin/a\ndefault out/all\n",
    ),
    (
        "@Android.bp\nt = { android: {} }\nt += { linux: {} }\nt += t\ncc_binary { name: \"a\", target: t }",
        "build out/m/a/android_arm64/bin/a: link\n  target = --target=aarch64-linux-android\n\
            build out/all: phony out/m/a/android_arm64/bin/a\ndefault out/all\n",
    ),
    (
        "@Android.bp\nt = { android: {} }\ns = [\"x.c\"]\n@a/Android.bp\nu = t + { linux: {} }\nv = { linux: {} } + t\n\
            cc_binary { name: \"a\", target: u + v, srcs: s + [\"y.c\"] }",
        "build out/m/a/android_arm64/obj/a/x.c.o: cc a/x.c\n  target = --target=aarch64-linux-android\n\
            build out/m/a/android_arm64/obj/a/y.c.o: cc a/y.c\n  target = --target=aarch64-linux-android\n\
            build out/m/a/android_arm64/bin/a: link out/m/a/android_arm64/obj/a/x.c.o \
            out/m/a/android_arm64/obj/a/y.c.o\n  target = --target=aarch64-linux-android\n\
            build out/all: phony out/m/a/android_arm64/bin/a\ndefault out/all\n",
    ),
    (
        "@Android.bp\ncc_binary { name: \"app\", srcs: [\"app.c\"], static_libs: [\"l\", \"r\"] }\n\
            cc_library_static { name: \"l\", srcs: [\"l.c\"], static_libs: [\"base\"] }\n\
            cc_library_static { name: \"r\", srcs: [\"r.c\"], static_libs: [\"base\"] }\n\
            cc_library_static { name: \"base\", srcs: [\"base.c\"] }\n",
        DIAMOND,
    ),
    (
        "@Android.bp\ncc_library_static { name: \"base\", srcs: [\"base.c\"] }\n\
            cc_binary { name: \"app\", static_libs: [\"l\"] }\n\
            cc_library_static { name: \"l\", static_libs: [\"base\"] }\n",
        EARLIER,
    ),
];

// The first tree that isn't built so, and what came.
fn differing<R: Threads + Sync>(
    rt: &R,
    alloc: Global,
    cases: &[(&'static str, &str)],
) -> Result<Option<(&'static str, String)>, OutOfMemory> {
    for (tree, end) in cases {
        if let Some(came) = other_than_built(rt, alloc, tree_of(alloc, tree)?, end)? {
            return Ok(Some((*tree, came)));
        }
    }
    Ok(None)
}

#[test]
fn trees_are_built(rt: HostRuntime) -> Result<(), Fail> {
    assert_eq!(rt; differing(&rt, rt.alloc(), BUILT)?, None);
    Ok(())
}

const HELLO: &str = "@Android.bp\ncc_binary {\n    name: \"hello\",\n    srcs: [\"hello.c\"],\n}\n";

// Whether HELLO is built by three calls of a store, nothing is put on a stream, and what is written is WRITTEN.
fn writes_all<R: Threads + Sync>(rt: &R, alloc: Global) -> Result<bool, OutOfMemory> {
    let mut store = store_of(alloc, tree_of(alloc, HELLO)?)?;
    let ended = end_of(rt, alloc, BUILD, &mut store)?;
    let is_written = store.held("build.ninja") == Some(WRITTEN.as_bytes());
    Ok(is_written && store.calls() == 3 && ended.shows(0, "", ""))
}

// Whether it is so too where no call can fail, and the streams have no room.
fn writes_all_freely<R: Threads + Sync>(rt: &R, alloc: Global) -> Result<bool, OutOfMemory> {
    let mut free = FreeStore::new(alloc, tree_of(alloc, HELLO)?, 9000)?;
    let mut out = FreeSink::new(alloc, 0)?;
    let mut diag = FreeSink::new(alloc, 0)?;
    let status = status_of(rt, alloc, BUILD, &mut free, &mut out, &mut diag)?;
    Ok(status == 0 && free.held("build.ninja") == Some(WRITTEN.as_bytes()))
}

#[test]
fn plain_start(rt: HostRuntime) -> Result<(), Fail> {
    assert!(rt; writes_all(&rt, rt.alloc())?);
    assert!(rt; writes_all_freely(&rt, rt.alloc())?);
    Ok(())
}

// How a build ends over a list that names one file twice, and how many calls of the store it makes.
fn end_of_found<R: Threads + Sync>(rt: &R, alloc: Global) -> Result<(u8, u32), OutOfMemory> {
    let list = b"./a/Android.bp\n\na/Android.bp\n";
    let mut tree = one_file(alloc, "list", list)?;
    let file = b"cc_binary { name: \"a\" }";
    put(alloc, "a/Android.bp", file, &mut tree)?;
    let mut store = store_of(alloc, tree)?;
    let status = end_of(rt, alloc, BUILD, &mut store)?.status;
    Ok((status, store.calls()))
}

#[test]
fn list_as_finder_writes(rt: HostRuntime) -> Result<(), Fail> {
    assert_eq!(rt; end_of_found(&rt, rt.alloc())?, (0, 3));
    Ok(())
}

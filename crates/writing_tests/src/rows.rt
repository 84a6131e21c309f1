//! The nodes of worked examples with their statements, and nodes whose sources have a fault.
use bp_faults::Target;
use bp_props::ModuleKind;
use module_graph::{Axis, EdgeKind, Variation};

/// The lists of flags of a record.
#[derive(Clone, Copy)]
pub enum Flags {
    Every,
    C,
    Cpp,
    Asm,
    Link,
}

/// What a node has besides its sources and edges.
#[derive(Clone, Copy)]
pub enum Has {
    Variation(Axis, Variation),
    Flag(Flags, &'static str),
    Include(&'static str),
    Level(u32),
    Line(u32),
    Slib(u32),
}

const STATIC: Has = Has::Variation(Axis::Link, Variation::Static);

const SHARED: Has = Has::Variation(Axis::Link, Variation::Shared);

const ASAN: Has = Has::Variation(Axis::Sanitize, Variation::Asan);

const FIRST: Has = Has::Variation(Axis::PerSource, Variation::PerSource(1));

const LINUX: Has = Has::Variation(Axis::Target, Variation::Target(Target::LinuxGlibcX86_64));

/// A node, alone of its module: the name, the kind, the sources, the edges and what else it has; then its
/// statements or its fault, where they are compared. The source at index n is in line n + 1.
pub type Row = (
    &'static str,
    ModuleKind,
    &'static [&'static str],
    &'static [(EdgeKind, u32)],
    &'static [Has],
    Option<&'static str>,
);

pub const ROWS: [Row; 19] = [
    (
        "liblog",
        ModuleKind::LibraryShared,
        &["log.c"],
        &[],
        &[SHARED],
        None,
    ),
    // a library for two targets
    (
        "libdemo",
        ModuleKind::Library,
        &["demo/demo.cpp", "demo/android.cpp"],
        &[],
        &[STATIC],
        Some(
            "build out/m/libdemo/android_arm64_static/obj/demo/demo.cpp.o: cxx demo/demo.cpp
  target = --target=aarch64-linux-android
build out/m/libdemo/android_arm64_static/obj/demo/android.cpp.o: cxx demo/android.cpp
  target = --target=aarch64-linux-android
build out/m/libdemo/android_arm64_static/bin/libdemo.a: ar out/m/libdemo/android_arm64_static/obj/demo/demo.cpp.o \
    out/m/libdemo/android_arm64_static/obj/demo/android.cpp.o
",
        ),
    ),
    (
        "libdemo",
        ModuleKind::Library,
        &["demo/demo.cpp"],
        &[],
        &[STATIC, LINUX],
        Some(
            "build out/m/libdemo/linux_glibc_x86_64_static/obj/demo/demo.cpp.o: cxx demo/demo.cpp
  target = --target=x86_64-linux-gnu
build out/m/libdemo/linux_glibc_x86_64_static/bin/libdemo.a: ar \
    out/m/libdemo/linux_glibc_x86_64_static/obj/demo/demo.cpp.o
",
        ),
    ),
    // a program, and a test that needs it
    (
        "demo",
        ModuleKind::Binary,
        &["demo/main.cpp"],
        &[(EdgeKind::Static, 1), (EdgeKind::Shared, 0)],
        &[
            Has::Flag(Flags::Every, "-Wall"),
            Has::Flag(Flags::Every, "-Werror"),
            Has::Flag(Flags::Every, "-DARM64"),
            Has::Include("demo/include"),
            Has::Line(1),
            Has::Slib(0),
        ],
        Some(
            "build out/m/demo/android_arm64/obj/demo/main.cpp.o: cxx demo/main.cpp
  target = --target=aarch64-linux-android
  cflags = -Wall -Werror -DARM64
  includes = -Idemo/include
build out/m/demo/android_arm64/bin/demo: link out/m/demo/android_arm64/obj/demo/main.cpp.o \
    out/m/libdemo/android_arm64_static/bin/libdemo.a out/m/liblog/android_arm64_shared/bin/liblog.so
  target = --target=aarch64-linux-android
",
        ),
    ),
    (
        "demo_test",
        ModuleKind::Test,
        &[],
        &[(EdgeKind::DataBin, 3), (EdgeKind::DataBin, 3)],
        &[FIRST, Has::Line(1), Has::Slib(0)],
        Some(
            "build out/m/demo_test/android_arm64_t1/bin/demo_test: link \
    out/m/libdemo/android_arm64_static/bin/libdemo.a out/m/liblog/android_arm64_shared/bin/liblog.so || \
    out/m/demo/android_arm64/bin/demo
  target = --target=aarch64-linux-android
",
        ),
    ),
    // a level
    (
        "z",
        ModuleKind::LibraryStatic,
        &["z.c"],
        &[],
        &[STATIC, Has::Flag(Flags::Every, "-fPIC"), Has::Level(29)],
        Some(
            "build out/m/z/android_arm64_static/obj/z.c.o: cc z.c
  target = --target=aarch64-linux-android
  cflags = -fPIC -DMIN_SDK=29
build out/m/z/android_arm64_static/bin/z.a: ar out/m/z/android_arm64_static/obj/z.c.o
",
        ),
    ),
    // one library by three edges
    (
        "app",
        ModuleKind::Binary,
        &["app.c"],
        &[
            (EdgeKind::Whole, 5),
            (EdgeKind::Static, 5),
            (EdgeKind::Static, 5),
        ],
        &[Has::Line(5)],
        Some(
            "build out/m/app/android_arm64/obj/app.c.o: cc app.c
  target = --target=aarch64-linux-android
build out/m/app/android_arm64/bin/app: link out/m/app/android_arm64/obj/app.c.o out/m/z/android_arm64_static/obj/z.c.o \
    out/m/z/android_arm64_static/bin/z.a
  target = --target=aarch64-linux-android
",
        ),
    ),
    // a library that is wanted twice
    (
        "z",
        ModuleKind::LibraryStatic,
        &[],
        &[],
        &[STATIC, ASAN],
        None,
    ),
    (
        "app2",
        ModuleKind::Binary,
        &[],
        &[(EdgeKind::Static, 7)],
        &[
            ASAN,
            Has::Line(7),
            Has::Flag(Flags::Link, "-fsanitize=address"),
        ],
        Some(
            "build out/m/app2/android_arm64_asan/bin/app2: link out/m/z/android_arm64_static_asan/bin/z.a
  target = --target=aarch64-linux-android
  ldflags = -fsanitize=address
",
        ),
    ),
    // a path and a flag that are escaped where they are written
    (
        "x",
        ModuleKind::Binary,
        &["a b:$.c"],
        &[],
        &[Has::Flag(Flags::Every, " -X")],
        Some(
            "build out/m/x/android_arm64/obj/a b:$.c.o: cc a b:$.c
  target = --target=aarch64-linux-android
  cflags =  -X
build out/m/x/android_arm64/bin/x: link out/m/x/android_arm64/obj/a b:$.c.o
  target = --target=aarch64-linux-android
",
        ),
    ),
    // each suffix, a header twice, the root as a directory
    (
        "all",
        ModuleKind::LibraryStatic,
        &[
            "a.c", "b.cc", "c.cpp", "d.cxx", "e.S", "f.s", "g.h", "h.hh", "i.hpp", "j.inc", "g.h",
        ],
        &[],
        &[
            STATIC,
            Has::Flag(Flags::Every, "-all"),
            Has::Flag(Flags::C, "-c"),
            Has::Flag(Flags::Cpp, "-cpp"),
            Has::Flag(Flags::Asm, "-as"),
            Has::Include(""),
            Has::Include("inc"),
        ],
        Some(
            "build out/m/all/android_arm64_static/obj/a.c.o: cc a.c | g.h h.hh i.hpp j.inc
  target = --target=aarch64-linux-android
  cflags = -all -c
  includes = -I. -Iinc
build out/m/all/android_arm64_static/obj/b.cc.o: cxx b.cc | g.h h.hh i.hpp j.inc
  target = --target=aarch64-linux-android
  cflags = -all -cpp
  includes = -I. -Iinc
build out/m/all/android_arm64_static/obj/c.cpp.o: cxx c.cpp | g.h h.hh i.hpp j.inc
  target = --target=aarch64-linux-android
  cflags = -all -cpp
  includes = -I. -Iinc
build out/m/all/android_arm64_static/obj/d.cxx.o: cxx d.cxx | g.h h.hh i.hpp j.inc
  target = --target=aarch64-linux-android
  cflags = -all -cpp
  includes = -I. -Iinc
build out/m/all/android_arm64_static/obj/e.S.o: as e.S | g.h h.hh i.hpp j.inc
  target = --target=aarch64-linux-android
  cflags = -as
  includes = -I. -Iinc
build out/m/all/android_arm64_static/obj/f.s.o: as f.s | g.h h.hh i.hpp j.inc
  target = --target=aarch64-linux-android
  cflags = -as
  includes = -I. -Iinc
build out/m/all/android_arm64_static/bin/all.a: ar out/m/all/android_arm64_static/obj/a.c.o \
    out/m/all/android_arm64_static/obj/b.cc.o out/m/all/android_arm64_static/obj/c.cpp.o \
    out/m/all/android_arm64_static/obj/d.cxx.o out/m/all/android_arm64_static/obj/e.S.o \
    out/m/all/android_arm64_static/obj/f.s.o
",
        ),
    ),
    // a file group in a file group, and a library that asks for it
    (
        "inner",
        ModuleKind::Filegroup,
        &["in.c"],
        &[],
        &[],
        Some(""),
    ),
    (
        "outer",
        ModuleKind::Filegroup,
        &[":inner", "out.h"],
        &[(EdgeKind::Sources, 11)],
        &[],
        Some(""),
    ),
    (
        "asks",
        ModuleKind::LibraryShared,
        &["own.c", ":outer"],
        &[(EdgeKind::Sources, 12)],
        &[SHARED],
        Some(
            "build out/m/asks/android_arm64_shared/obj/own.c.o: cc own.c | out.h
  target = --target=aarch64-linux-android
build out/m/asks/android_arm64_shared/obj/in.c.o: cc in.c | out.h
  target = --target=aarch64-linux-android
build out/m/asks/android_arm64_shared/bin/asks.so: solink out/m/asks/android_arm64_shared/obj/own.c.o \
    out/m/asks/android_arm64_shared/obj/in.c.o
  target = --target=aarch64-linux-android
",
        ),
    ),
    // the variant of one source that asks for a file group, with the edges of all its module's sources
    (
        "per",
        ModuleKind::Test,
        &[":inner"],
        &[(EdgeKind::Sources, 12), (EdgeKind::Sources, 11)],
        &[FIRST],
        Some(
            "build out/m/per/android_arm64_t1/obj/in.c.o: cc in.c
  target = --target=aarch64-linux-android
build out/m/per/android_arm64_t1/bin/per: link out/m/per/android_arm64_t1/obj/in.c.o
  target = --target=aarch64-linux-android
",
        ),
    ),
    (
        "none",
        ModuleKind::LibraryHeaders,
        &["n.txt"],
        &[],
        &[],
        Some(""),
    ),
    // bad and duplicate sources, in both orders
    (
        "bad",
        ModuleKind::Binary,
        &["z.txt"],
        &[],
        &[],
        Some(":1:1: error 25: bad source: z.txt\n"),
    ),
    (
        "twice",
        ModuleKind::Binary,
        &["x.c", "x.c", "z.txt"],
        &[],
        &[],
        Some(":2:1: error 28: duplicate source: x.c\n"),
    ),
    (
        "worse",
        ModuleKind::Binary,
        &["x.c", "z.txt", "x.c"],
        &[],
        &[],
        Some(":2:1: error 25: bad source: z.txt\n"),
    ),
];

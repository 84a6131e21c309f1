use bp_faults::OutOfMemory;
use std::alloc::Global;
use std::test::Fail;
use synthetic_tree::{Summary, summary_text, synth_tree};

// The paths of a tree, a line each; nothing where there is no such tree.
fn paths(alloc: Global, seed: u32, modules: u32) -> Result<String, OutOfMemory> {
    let mut shown = String::new(alloc);
    if modules >= 1 && modules <= 100000 {
        for (path, _) in synth_tree(alloc, seed, modules)?.as_slice() {
            shown.push_str(path.as_str())?;
            shown.push_str("\n")?;
        }
    }
    Ok(shown)
}

// The texts of all files of a tree, one behind another; nothing where there is no such tree.
fn text(alloc: Global, seed: u32, modules: u32) -> Result<Vec<u8>, OutOfMemory> {
    let mut text = Vec::new(alloc);
    if modules >= 1 && modules <= 100000 {
        for (_, bytes) in synth_tree(alloc, seed, modules)?.as_slice() {
            text.extend_from_slice(bytes.as_slice())?;
        }
    }
    Ok(text)
}

// The paths of a tree of twelve files, in file order.
const PATHS: &str = "\
b0/Android.bp
b1/Android.bp
b10/Android.bp
b11/Android.bp
b2/Android.bp
b3/Android.bp
b4/Android.bp
b5/Android.bp
b6/Android.bp
b7/Android.bp
b8/Android.bp
b9/Android.bp
";

#[test]
fn directories_by_their_bytes(rt: HostRuntime) -> Result<(), Fail> {
    let shown = paths(rt.alloc(), 1, 705)?;
    assert_eq!(rt; shown.as_str(), PATHS);
    Ok(())
}

const FIRST_THREE: &str = "\
cc_library_static {
    name: \"m0\",
    srcs: [\"m0.c\"],
    static_libs: [],
}
cc_library_static {
    name: \"m1\",
    srcs: [\"m1.c\"],
    static_libs: [\"m0\"],
}
cc_library_static {
    name: \"m2\",
    srcs: [\"m2.c\"],
    static_libs: [\"m1\", \"m1\"],
}
";

// The program of the first file, for a seed of 4: 4 % 4 is 0.
const PROGRAM: &str = "\
cc_binary {
    name: \"m63\",
    srcs: [\"m63.c\"],
    static_libs: [\"m4\", \"m12\"],
    sanitize: { address: true },
}
";

#[test]
fn modules_byte_for_byte(rt: HostRuntime) -> Result<(), Fail> {
    let three = text(rt.alloc(), 7, 3)?;
    assert!(rt; three.as_slice() == FIRST_THREE.as_bytes());
    let block = text(rt.alloc(), 4, 64)?;
    assert!(rt; block.as_slice().ends_with(PROGRAM.as_bytes()));
    Ok(())
}

#[test]
fn summary_of_six_lines(rt: HostRuntime) -> Result<(), Fail> {
    let summary = Summary {
        modules: 1,
        linked: 20,
        edges: 0,
        nodes: 4_294_967_295,
        statements: 5,
        bytes: 600,
    };
    assert_eq!(rt;
        summary_text(rt.alloc(), summary)?.as_str(),
        "modules 1\nnodes after link 20\nedges after plugins 0\nnodes 4294967295\nstatements 5\nbytes 600\n"
    );
    Ok(())
}

/// The most modules that a tree has, 64 in each file but the last.
#[test]
fn most_modules(rt: HostRuntime) -> Result<(), Fail> {
    let files = synth_tree(rt.alloc(), 7, 100_000)?;
    assert_eq!(rt; files.len(), 1563);
    Ok(())
}

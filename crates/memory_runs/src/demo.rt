/// The files of *demo_tree*, as `tree_of` reads them.
pub const DEMO_TREE: &str = r#"@demo/Android.bp
package { default_applicable_licenses: ["demo_license"] }

license {
    name: "demo_license",
    license_kinds: ["SPDX-license-identifier-Apache-2.0"],
}

cc_defaults {
    name: "demo_defaults",
    cflags: ["-Wall", "-Werror"],
    arch: { arm64: { cflags: ["-DARM64"] } },
}

// The library and what uses it.
cc_library {
    name: "libdemo",
    defaults: ["demo_defaults"],
    host_supported: true,
    srcs: ["demo.cpp"],
    export_include_dirs: ["include"],
    shared_libs: ["liblog"],
    target: { android: { srcs: ["android.cpp"] } },
}

cc_library_shared { name: "liblog", host_supported: true, srcs: ["log.c"] }

cc_binary {
    name: "demo",
    defaults: ["demo_defaults"],
    srcs: ["main.cpp"],
    static_libs: ["libdemo"],
    shared_libs: ["liblog"],
}

cc_test {
    name: "demo_test",
    srcs: ["test_a.cpp", "test_b.cpp"],
    test_per_src: true,
    test_suites: ["general-tests"],
    static_libs: ["libdemo"],
    shared_libs: ["liblog"],
    data_bins: ["demo"],
}
"#;

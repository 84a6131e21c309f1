//! The fields, each by its name: those of a record, those that a group holds, and the tables of them, from which bodies
//! that go over all fields are written.
//!
//! A table calls the macro that it is given with the arguments in brackets, and then its rows: a field of the struct,
//! and its name in [`Field`]. Other crates use the tables too.

ghost use Rattle.std.specs.Prelude.{◌&&◌};
ghost use Rattle.std.proofs.lemmas.Bool.Decides.{Decides-and};

use crate::table::same_fields;
use crate::{
    Given, GroupId, Listed, Source, group_dirs, group_flags, group_names, group_sources,
    group_truths,
};
use bp_faults::{Item, Path, Same, Text};

/// A property that has an effect, or a group, by its name.
///
/// `Address` and `Never` are those of the group `sanitize`. `Group` is a group of `arch`, `multilib` or
/// `target`, or `static` or `shared`.
#[derive(Clone, Copy, Debug, PartialEq, Eq)]
pub enum Field {
    Name,
    Enabled,
    Srcs,
    Defaults,
    Cflags,
    Conlyflags,
    Cppflags,
    Asflags,
    Ldflags,
    LocalIncludeDirs,
    IncludeDirs,
    ExportIncludeDirs,
    WholeStaticLibs,
    StaticLibs,
    SharedLibs,
    HeaderLibs,
    ExportStaticLibHeaders,
    ExportSharedLibHeaders,
    ExportHeaderLibHeaders,
    CompileMultilib,
    HostSupported,
    DeviceSupported,
    Vendor,
    VendorAvailable,
    Recovery,
    RecoveryAvailable,
    MinSdkVersion,
    Sanitize,
    Address,
    Never,
    Arch,
    Multilib,
    Target,
    PluginOf,
    TestPerSrc,
    DataBins,
    Group(GroupId),
}

/// The properties that every group but `sanitize` may hold, and that a module has of its own.
#[derive(Debug)]
pub struct GroupProps {
    pub enabled: Option<Given<bool>>,
    pub srcs: Listed<Source>,
    pub cflags: Listed<Text>,
    pub conlyflags: Listed<Text>,
    pub cppflags: Listed<Text>,
    pub asflags: Listed<Text>,
    pub ldflags: Listed<Text>,
    pub local_include_dirs: Listed<Path>,
    pub include_dirs: Listed<Path>,
    pub export_include_dirs: Listed<Path>,
    pub whole_static_libs: Listed<Item>,
    pub static_libs: Listed<Item>,
    pub shared_libs: Listed<Item>,
    pub header_libs: Listed<Item>,
    pub export_static_lib_headers: Listed<Item>,
    pub export_shared_lib_headers: Listed<Item>,
    pub export_header_lib_headers: Listed<Item>,
}

/// The truths that a group may hold.
#[macro_export]
macro_rules! group_truths {
    ($then:ident $($args:tt)*) => {
        $then!([$($args)*] (enabled Enabled))
    };
}

/// The lists of sources that a group may hold.
#[macro_export]
macro_rules! group_sources {
    ($then:ident $($args:tt)*) => {
        $then!([$($args)*] (srcs Srcs))
    };
}

/// The lists of flags that a group may hold.
#[macro_export]
macro_rules! group_flags {
    ($then:ident $($args:tt)*) => {
        $then!(
            [$($args)*]
            (cflags Cflags)
            (conlyflags Conlyflags)
            (cppflags Cppflags)
            (asflags Asflags)
            (ldflags Ldflags)
        )
    };
}

/// The lists of directories that a group may hold.
#[macro_export]
macro_rules! group_dirs {
    ($then:ident $($args:tt)*) => {
        $then!(
            [$($args)*]
            (local_include_dirs LocalIncludeDirs)
            (include_dirs IncludeDirs)
            (export_include_dirs ExportIncludeDirs)
        )
    };
}

/// The lists of modules' names that a group may hold.
#[macro_export]
macro_rules! group_names {
    ($then:ident $($args:tt)*) => {
        $then!(
            [$($args)*]
            (whole_static_libs WholeStaticLibs)
            (static_libs StaticLibs)
            (shared_libs SharedLibs)
            (header_libs HeaderLibs)
            (export_static_lib_headers ExportStaticLibHeaders)
            (export_shared_lib_headers ExportSharedLibHeaders)
            (export_header_lib_headers ExportHeaderLibHeaders)
        )
    };
}

/// The truths that a module's record alone has.
#[macro_export]
macro_rules! module_truths {
    ($then:ident $($args:tt)*) => {
        $then!(
            [$($args)*]
            (host_supported HostSupported)
            (device_supported DeviceSupported)
            (vendor Vendor)
            (vendor_available VendorAvailable)
            (recovery Recovery)
            (recovery_available RecoveryAvailable)
            (address Address)
            (never Never)
            (test_per_src TestPerSrc)
        )
    };
}

/// The lists of modules' names that a module's record alone has and that are merged. The third such list is
/// `defaults`, which isn't.
#[macro_export]
macro_rules! module_names {
    ($then:ident $($args:tt)*) => {
        $then!([$($args)*] (plugin_of PluginOf) (data_bins DataBins))
    };
}

impl Same for GroupProps {
    ghost use Rattle.std.proofs.Common.{rules};
    ghost use Rattle.std.specs.Cmp.{booleans_Decides};
    ghost use Rattle.std.specs.Cmp.Lexicographic.{bytes_decides};
    ghost use Rattle.bp_faults.specs.Equalities.{options_tell};
    ghost use Rattle.bp_faults.specs.contracts.same.ItemSame.TheImpl.Laws.{tells-law as item_tells};
    ghost use Rattle.bp_props.specs.contracts.same.SourceSame.TheImpl.Laws.{tells-law as source_tells};
    ghost use Rattle.bp_props.specs.Same.{given_tells, listed_tells};

    ghost same_as = { λ a b. ⟦<Option<Given<bool>> as Same>⟧.same_as a.enabled b.enabled
        && (⟦<Listed<Source> as Same>⟧.same_as a.srcs b.srcs
        && (⟦<Listed<Text> as Same>⟧.same_as a.cflags b.cflags
        && (⟦<Listed<Text> as Same>⟧.same_as a.conlyflags b.conlyflags
        && (⟦<Listed<Text> as Same>⟧.same_as a.cppflags b.cppflags
        && (⟦<Listed<Text> as Same>⟧.same_as a.asflags b.asflags
        && (⟦<Listed<Text> as Same>⟧.same_as a.ldflags b.ldflags
        && (⟦<Listed<Path> as Same>⟧.same_as a.local_include_dirs b.local_include_dirs
        && (⟦<Listed<Path> as Same>⟧.same_as a.include_dirs b.include_dirs
        && (⟦<Listed<Path> as Same>⟧.same_as a.export_include_dirs b.export_include_dirs
        && (⟦<Listed<Item> as Same>⟧.same_as a.whole_static_libs b.whole_static_libs
        && (⟦<Listed<Item> as Same>⟧.same_as a.static_libs b.static_libs
        && (⟦<Listed<Item> as Same>⟧.same_as a.shared_libs b.shared_libs
        && (⟦<Listed<Item> as Same>⟧.same_as a.header_libs b.header_libs
        && (⟦<Listed<Item> as Same>⟧.same_as a.export_static_lib_headers b.export_static_lib_headers
        && (⟦<Listed<Item> as Same>⟧.same_as a.export_shared_lib_headers b.export_shared_lib_headers
        && (⟦<Listed<Item> as Same>⟧.same_as a.export_header_lib_headers b.export_header_lib_headers)))))))))))))))) };

    fn same(&self, other: &GroupProps) -> bool {
        group_truths!(same_fields self, other)
            && group_sources!(same_fields self, other)
            && group_flags!(same_fields self, other)
            && group_dirs!(same_fields self, other)
            && group_names!(same_fields self, other)
    }

    ghost tells = { λ a b. let all =
        Decides-and _ _ (options_tell (given_tells booleans_Decides) a.enabled b.enabled) (
        Decides-and _ _ (listed_tells source_tells a.srcs b.srcs) (
        Decides-and _ _ (listed_tells bytes_decides a.cflags b.cflags) (
        Decides-and _ _ (listed_tells bytes_decides a.conlyflags b.conlyflags) (
        Decides-and _ _ (listed_tells bytes_decides a.cppflags b.cppflags) (
        Decides-and _ _ (listed_tells bytes_decides a.asflags b.asflags) (
        Decides-and _ _ (listed_tells bytes_decides a.ldflags b.ldflags) (
        Decides-and _ _ (listed_tells bytes_decides a.local_include_dirs b.local_include_dirs) (
        Decides-and _ _ (listed_tells bytes_decides a.include_dirs b.include_dirs) (
        Decides-and _ _ (listed_tells bytes_decides a.export_include_dirs b.export_include_dirs) (
        Decides-and _ _ (listed_tells item_tells a.whole_static_libs b.whole_static_libs) (
        Decides-and _ _ (listed_tells item_tells a.static_libs b.static_libs) (
        Decides-and _ _ (listed_tells item_tells a.shared_libs b.shared_libs) (
        Decides-and _ _ (listed_tells item_tells a.header_libs b.header_libs) (
        Decides-and _ _ (listed_tells item_tells a.export_static_lib_headers b.export_static_lib_headers) (
        Decides-and _ _ (listed_tells item_tells a.export_shared_lib_headers b.export_shared_lib_headers) (
        listed_tells item_tells a.export_header_lib_headers b.export_header_lib_headers)))))))))))))))) in
        (λ h. let parts = all.0 h in Prim.search rules, λ e. all.1 (Prim.search rules)) };
}

macro_rules! with_truths {
    ([$make:ident $record:expr, $($lists:tt)*] $($truths:tt)*) => {
        $make!($record, [$($truths)*] [$($lists)*])
    };
}

macro_rules! with_names {
    ([$make:ident $record:expr, $($before:tt)*] $($names:tt)*) => {
        group_truths!(with_truths $make $record, $($before)* $($names)*)
    };
}

macro_rules! with_dirs {
    ([$make:ident $record:expr, $($before:tt)*] $($dirs:tt)*) => {
        group_names!(with_names $make $record, $($before)* $($dirs)*)
    };
}

macro_rules! with_flags {
    ([$make:ident $record:expr, $($before:tt)*] $($flags:tt)*) => {
        group_dirs!(with_dirs $make $record, $($before)* $($flags)*)
    };
}

/// A struct with all fields of a group, written by a macro from its scalars and its lists.
macro_rules! all_fields {
    ([$make:ident $record:expr] $($sources:tt)*) => {
        group_flags!(with_flags $make $record, $($sources)*)
    };
}

macro_rules! drop_group {
    ($group:expr, [$(($set:ident $a:ident))*] [$(($list:ident $b:ident))*]) => {
        let GroupProps { $($set: _,)* $($list: _,)* } = $group;
    };
}

impl Drop for GroupProps {
    fn drop(self) {
        group_sources!(all_fields drop_group self);
    }
}

pub(crate) use all_fields;
pub(crate) use with_dirs;
pub(crate) use with_flags;
pub(crate) use with_names;
pub(crate) use with_truths;

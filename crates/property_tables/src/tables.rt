//! The rows of the property tables. A property has one row, whichever modules and groups have it.
ghost use Rattle.std.specs.Prelude.{◌≡◌, IsTrue, map};
ghost use Rattle.property_tables.specs.Inside.{offered_of};
ghost use Rattle.property_tables.specs.Tables.{properties, table_of, group_table, sanitize_table, arch_table};
ghost use Rattle.property_tables.specs.Tables.{multilib_table, target_table, property_of, names_ascend};

use crate::offer::{Kinds, Offer, Wanted};
use crate::{PropKind, PropTable, Row};
use bp_faults::Target;
use bp_props::{Field, GroupId, ModuleKind};

macro_rules! offer {
    ($name:literal $kind:ident $kinds:ident $effect:expr, $in_groups:literal) => {
        Offer {
            row: Row {
                name: $name,
                kind: PropKind::$kind,
                effect: $effect,
            },
            kinds: Kinds::$kinds,
            in_groups: $in_groups,
        }
    };
}

/// A row that sets a field.
macro_rules! sets {
    ($name:literal $kind:ident $kinds:ident $($field:tt)+) => {
        offer!($name $kind $kinds Some(Field::$($field)+), false)
    };
}

/// A row that sets a field, which groups may hold too.
macro_rules! joint {
    ($name:literal $kind:ident $kinds:ident $field:ident) => {
        offer!($name $kind $kinds Some(Field::$field), true)
    };
}

/// A row without effect.
macro_rules! inert {
    ($name:literal $kind:ident $kinds:ident) => {
        offer!($name $kind $kinds None, false)
    };
}

/// A row of a group.
macro_rules! group {
    ($name:literal $($id:tt)+) => {
        sets!($name Group Every Group(GroupId::$($id)+))
    };
}

static PROPERTIES: [Offer; 58] = [
    inert!("apex_available" Words Cc),
    sets!("arch" Group Cc Arch),
    joint!("asflags" Flags Cc Asflags),
    inert!("auto_gen_config" Bool Cc),
    inert!("c_std" Word Cc),
    joint!("cflags" Flags Cc Cflags),
    sets!("compile_multilib" Multi Cc CompileMultilib),
    joint!("conlyflags" Flags Cc Conlyflags),
    inert!("cpp_std" Word Cc),
    joint!("cppflags" Flags Cc Cppflags),
    inert!("data" Words Cc),
    sets!("data_bins" Names Tests DataBins),
    sets!("defaults" Names Cc Defaults),
    sets!("device_supported" Bool Cc DeviceSupported),
    inert!("double_loadable" Bool Cc),
    joint!("enabled" Bool Every Enabled),
    joint!("export_header_lib_headers" Names Cc ExportHeaderLibHeaders),
    joint!("export_include_dirs" Dirs Cc ExportIncludeDirs),
    joint!("export_shared_lib_headers" Names Cc ExportSharedLibHeaders),
    joint!("export_static_lib_headers" Names Cc ExportStaticLibHeaders),
    inert!("gtest" Bool Cc),
    joint!("header_libs" Names Cc HeaderLibs),
    sets!("host_supported" Bool Cc HostSupported),
    joint!("include_dirs" Dirs Cc IncludeDirs),
    inert!("init_rc" Words Cc),
    joint!("ldflags" Flags Cc Ldflags),
    inert!("licenses" Words Every),
    joint!("local_include_dirs" Dirs Cc LocalIncludeDirs),
    sets!("min_sdk_version" Level Cc MinSdkVersion),
    sets!("multilib" Group Cc Multilib),
    sets!("name" Word Every Name),
    inert!("native_bridge_supported" Bool Cc),
    inert!("owner" Word Cc),
    inert!("path" Word Filegroup),
    sets!("plugin_of" Names PlugIns PluginOf),
    inert!("ramdisk_available" Bool Cc),
    sets!("recovery" Bool Cc Recovery),
    sets!("recovery_available" Bool Cc RecoveryAvailable),
    inert!("relative_install_path" Word Cc),
    inert!("required" Words Cc),
    sets!("sanitize" Group Cc Sanitize),
    inert!("sdk_version" Word Cc),
    sets!("shared" Group BothLinks Group(GroupId::Shared)),
    joint!("shared_libs" Names Cc SharedLibs),
    joint!("srcs" Paths Every Srcs),
    sets!("static" Group BothLinks Group(GroupId::Static)),
    joint!("static_libs" Names Cc StaticLibs),
    inert!("stl" Word Cc),
    sets!("target" Group Cc Target),
    inert!("test_config" Word Cc),
    sets!("test_per_src" Bool Tests TestPerSrc),
    inert!("test_suites" Words Cc),
    inert!("tidy" Bool Cc),
    sets!("vendor" Bool Cc Vendor),
    sets!("vendor_available" Bool Cc VendorAvailable),
    inert!("vintf_fragments" Words Cc),
    inert!("visibility" Words Every),
    joint!("whole_static_libs" Names Cc WholeStaticLibs),
];

static SANITIZE: [Offer; 2] = [
    sets!("address" Bool Every Address),
    sets!("never" Bool Every Never),
];

static ARCH: [Offer; 5] = [
    group!("arm" ArchArm),
    group!("arm64" ArchArm64),
    group!("riscv64" ArchRiscv64),
    group!("x86" ArchX86),
    group!("x86_64" ArchX86_64),
];

static MULTILIB: [Offer; 2] = [group!("lib32" Lib32), group!("lib64" Lib64)];

static TARGET: [Offer; 15] = [
    group!("android" Android),
    group!("android_arm" Named(Target::AndroidArm)),
    group!("android_arm64" Named(Target::AndroidArm64)),
    group!("android_x86" Named(Target::AndroidX86)),
    group!("android_x86_64" Named(Target::AndroidX86_64)),
    group!("darwin" Darwin),
    group!("host" Host),
    group!("linux" Linux),
    group!("linux_glibc" LinuxGlibc),
    group!("linux_glibc_x86" Named(Target::LinuxGlibcX86)),
    group!("linux_glibc_x86_64" Named(Target::LinuxGlibcX86_64)),
    group!("not_windows" NotWindows),
    group!("recovery" Recovery),
    group!("vendor" Vendor),
    group!("windows" Windows),
];

fn rows() -> &'static [Offer]
    ensures rows { map offered_of result.now ≡ properties }
    ensures order { IsTrue (names_ascend (map (λ o. property_of o.row) result.now)) }
{
    &PROPERTIES
}

/// The table of a kind of module.
pub(crate) fn of_kind(kind: ModuleKind) -> PropTable
    ensures { result ≡ table_of kind }
{
    PropTable::of(rows(), Wanted::Kind(kind))
}

/// The properties of modules of any kind.
pub fn of_modules() -> PropTable
    ensures { result ≡ map (λ o. o.property) properties }
{
    PropTable::of(rows(), Wanted::All)
}

/// The table of every group but `sanitize`.
pub fn group() -> PropTable
    ensures { result ≡ group_table }
{
    PropTable::of(rows(), Wanted::Groups)
}

/// The table of `sanitize`.
pub fn sanitize() -> PropTable
    ensures { result ≡ sanitize_table }
{
    PropTable::of(&SANITIZE, Wanted::All)
}

/// The table of the groups of `arch`.
pub fn arch() -> PropTable
    ensures { result ≡ arch_table }
{
    PropTable::of(&ARCH, Wanted::All)
}

/// The table of the groups of `multilib`.
pub fn multilib() -> PropTable
    ensures { result ≡ multilib_table }
{
    PropTable::of(&MULTILIB, Wanted::All)
}

/// The table of the groups of `target`.
pub fn target() -> PropTable
    ensures { result ≡ target_table }
{
    PropTable::of(&TARGET, Wanted::All)
}

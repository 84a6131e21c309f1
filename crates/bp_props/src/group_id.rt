use bp_faults::Target;

/// The groups that a record may have, ascending.
#[derive(Clone, Copy, Debug, PartialEq, Eq, PartialOrd, Ord)]
pub enum GroupId {
    ArchArm,
    ArchArm64,
    ArchRiscv64,
    ArchX86,
    ArchX86_64,
    Lib32,
    Lib64,
    Android,
    Host,
    Linux,
    LinuxGlibc,
    NotWindows,
    Darwin,
    Windows,
    Vendor,
    Recovery,
    Named(Target),
    Static,
    Shared,
}

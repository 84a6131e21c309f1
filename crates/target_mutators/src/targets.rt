ghost use Rattle.std.specs.Prelude.{◌≡◌};
ghost use Rattle.target_mutators.specs.Targets.{row_of, bits_group, class_groups};

use bp_faults::Target;
use bp_props::GroupId;

/// Where the programs of a target run.
#[derive(Clone, Copy, Debug)]
pub enum Class {
    Device,
    Host,
}

/// How wide the addresses of a target are.
#[derive(Clone, Copy, Debug)]
pub enum Bits {
    Bits32,
    Bits64,
}

/// What the table of targets says of one. `arch` is the group of its architecture.
#[derive(Clone, Copy, Debug)]
pub struct TargetRow {
    pub class: Class,
    pub arch: GroupId,
    pub bits: Bits,
}

const fn row(class: Class, arch: GroupId, bits: Bits) -> TargetRow
    ensures { result ≡ record { class = class; arch = arch; bits = bits } }
{
    TargetRow { class, arch, bits }
}

/// The table of targets.
pub fn row_of(target: Target) -> TargetRow
    ensures { result ≡ row_of target }
{
    match target {
        Target::AndroidArm64 => row(Class::Device, GroupId::ArchArm64, Bits::Bits64),
        Target::AndroidArm => row(Class::Device, GroupId::ArchArm, Bits::Bits32),
        Target::AndroidX86_64 => row(Class::Device, GroupId::ArchX86_64, Bits::Bits64),
        Target::AndroidX86 => row(Class::Device, GroupId::ArchX86, Bits::Bits32),
        Target::LinuxGlibcX86_64 => row(Class::Host, GroupId::ArchX86_64, Bits::Bits64),
        Target::LinuxGlibcX86 => row(Class::Host, GroupId::ArchX86, Bits::Bits32),
    }
}

/// The group of a width.
pub fn bits_group(bits: Bits) -> GroupId
    ensures { result ≡ bits_group bits }
{
    match bits {
        Bits::Bits32 => GroupId::Lib32,
        Bits::Bits64 => GroupId::Lib64,
    }
}

/// The groups that the targets of a class have in common, in the order in which they are appended.
pub fn class_groups(class: Class) -> &'static [GroupId]
    ensures { result.now ≡ class_groups class }
{
    match class {
        Class::Device => &[GroupId::Linux, GroupId::Android],
        Class::Host => &[
            GroupId::Linux,
            GroupId::NotWindows,
            GroupId::Host,
            GroupId::LinuxGlibc,
        ],
    }
}

ghost use Rattle.std.specs.Prelude.{◌≡◌};

/// What a variant is built for: a system, an architecture and its bits.
#[derive(Clone, Copy, Debug, PartialEq, Eq, PartialOrd, Ord)]
pub enum Target {
    AndroidArm64,
    AndroidArm,
    AndroidX86_64,
    AndroidX86,
    LinuxGlibcX86_64,
    LinuxGlibcX86,
}

impl Target {
    ghost use Rattle.bp_faults.specs.Targets.{target_name};

    /// The target's name, as the words and the variants spell it.
    pub fn name(self) -> &'static str
        ensures { result.now ≡ target_name self }
    {
        match self {
            Target::AndroidArm64 => "android_arm64",
            Target::AndroidArm => "android_arm",
            Target::AndroidX86_64 => "android_x86_64",
            Target::AndroidX86 => "android_x86",
            Target::LinuxGlibcX86_64 => "linux_glibc_x86_64",
            Target::LinuxGlibcX86 => "linux_glibc_x86",
        }
    }
}

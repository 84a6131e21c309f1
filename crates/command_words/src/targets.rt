ghost use Rattle.std.specs.Prelude.{◌≡◌, [], option_map, map, IfOk};
ghost use Rattle.std.specs.List.{list_any};
ghost use Rattle.command_words.specs.Once.{has_none_twice};
ghost use Rattle.command_words.specs.Values.{target_of, is_same_target, targets_named, names_in, targets_of};

use bp_faults::{OutOfMemory, Seq, Target};
use std::alloc::{AllocError, Global};

/// The names of the targets, in their order.
pub const TARGETS: [&str; 6] = [
    "android_arm64",
    "android_arm",
    "android_x86_64",
    "android_x86",
    "linux_glibc_x86_64",
    "linux_glibc_x86",
];

fn target_of(name: &str) -> Option<Target>
    ensures { result ≡ target_of name.now }
{
    match name {
        "android_arm64" => Some(Target::AndroidArm64),
        "android_arm" => Some(Target::AndroidArm),
        "android_x86_64" => Some(Target::AndroidX86_64),
        "android_x86" => Some(Target::AndroidX86),
        "linux_glibc_x86_64" => Some(Target::LinuxGlibcX86_64),
        "linux_glibc_x86" => Some(Target::LinuxGlibcX86),
        _ => None,
    }
}

fn has_target(targets: &[Target], target: Target) -> bool
    ensures { result ≡ list_any (λ other. is_same_target other target) targets.now }
{
    targets.iter().any(|other| other.name() == target.name())
}

// Of seven targets one stands twice, and ends the loop.
fn has_none_twice(targets: &[Target]) -> bool
    ensures { result ≡ has_none_twice is_same_target [] targets.now }
{
    for (i, target) in targets.iter().enumerate() {
        if has_target(&targets[..i], *target) {
            return false;
        }
    }
    true
}

fn names(alloc: Global, text: &str) -> Result<Vec<&str>, AllocError>
    ensures { IfOk result (λ names. map (λ name. name.now) names.items ≡ names_in text.now) }
{
    let mut names = Vec::new(alloc);
    for name in text.split(',') {
        names.push(name)?;
    }
    Ok(names)
}

fn targets_named(alloc: Global, names: &[&str]) -> Result<Option<Vec<Target>>, OutOfMemory>
    ensures { IfOk result (λ targets. option_map (λ v. v.items) targets ≡ targets_named (map (λ n. n.now) names.now)) }
{
    let mut targets = Vec::new(alloc);
    for name in names {
        match target_of(name) {
            Some(target) => targets.push(target)?,
            None => return Ok(None),
        }
    }
    Ok(Some(targets))
}

/// The targets of a value: names joined by `,`, none of them twice.
pub fn targets(alloc: Global, text: &str) -> Result<Option<Seq<Target>>, OutOfMemory>
    ensures { IfOk result (λ targets. targets ≡ targets_of text.now) }
{
    let names = names(alloc, text)?;
    match targets_named(alloc, names.as_slice())? {
        Some(targets) if has_none_twice(targets.as_slice()) => Ok(Some(Seq::new(targets))),
        _ => Ok(None),
    }
}

ghost use Rattle.std.specs.Prelude.{◌≡◌, ◌==◌, [], option_map, map, IfOk};
ghost use Rattle.std.specs.List.{slice_split};
ghost use Rattle.fault_view.specs.Unknown.{rest_behind, subject_of, unknown_of, last_two, last_parts};

use crate::fault_line::FaultLine;
use bp_faults::{FaultKind, OutOfMemory};
use std::alloc::{AllocError, Global};

/// What is said to be unknown.
#[derive(Clone, Copy, Debug, PartialEq, Eq)]
pub enum Unknown {
    ModuleType,
    Property,
    Module,
}

// What stands behind the first text in the second.
fn behind<'a>(first: &str, text: &'a str) -> Option<&'a str>
    ensures { option_map (λ rest. rest.now) result ≡ rest_behind first.now text.now }
{
    text.strip_prefix(first)
}

// The subject of a line, where its fault is of this kind.
fn subject_of(line: &FaultLine, kind: FaultKind) -> Option<&str>
    ensures { option_map (λ subject. subject.now) result ≡ subject_of kind line.now }
{
    if line.number != kind.number() {
        return None;
    }
    match behind(kind.text(), line.what.as_str()) {
        Some(rest) => behind(": ", rest),
        None => None,
    }
}

/// What a line says is unknown, and its name.
pub fn unknown_of(line: &FaultLine) -> Option<(Unknown, &str)>
    ensures { option_map (λ u. (u.0, u.1.now)) result ≡ unknown_of line.now }
{
    if let Some(subject) = subject_of(line, FaultKind::UnknownType) {
        return Some((Unknown::ModuleType, subject));
    }
    if let Some(subject) = subject_of(line, FaultKind::UnknownProperty) {
        return Some((Unknown::Property, subject));
    }
    if let Some(subject) = subject_of(line, FaultKind::MissingModule) {
        return Some((Unknown::Module, subject));
    }
    let subject = subject_of(line, FaultKind::NoModule)?;
    Some((Unknown::Module, subject))
}

fn parts(alloc: Global, property: &str) -> Result<Vec<&str>, AllocError>
    ensures { IfOk result (λ parts. map (λ part. part.now) parts.items ≡ slice_split (λ b. b == 46) property.now) }
{
    property.split('.').collect(alloc)
}

fn last_two<'a>(parts: &[&'a str]) -> (&'a str, &'a str)
    ensures { (result.0.now, result.1.now) ≡ last_two [] [] (map (λ part. part.now) parts.now) }
{
    let mut group = "";
    let mut name = "";
    for part in parts {
        group = name;
        name = part;
    }
    (group, name)
}

/// The last group of a property, which is empty where it stands in none, and its last name.
pub fn last_parts(alloc: Global, property: &str) -> Result<(&str, &str), OutOfMemory>
    ensures { IfOk result (λ parts. (parts.0.now, parts.1.now) ≡ last_parts property.now) }
{
    let parts = parts(alloc, property)?;
    Ok(last_two(&parts))
}

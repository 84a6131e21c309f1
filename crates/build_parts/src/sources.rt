ghost use Rattle.std.specs.Prelude.{◌≡◌, [], IfOk, OnOk};
ghost use Rattle.bp_faults.specs.Answers.{Answers};
ghost use Rattle.bp_names.specs.Meaning.{Learns};
ghost use Rattle.build_parts.specs.Sources.{ends, source_kind, source_fault, checked_by, source_checked};
ghost use Rattle.build_parts.specs.Sources.{sources_checked};

use bp_faults::{Fault, FaultKind, Item, OutOfMemory, Refusal};
use bp_names::NameSet;
use bp_names::laws::sets_grow_with_lists;
use std::alloc::Global;

/// In what a source is written.
#[derive(Clone, Copy, Debug, PartialEq, Eq)]
pub enum Language {
    C,
    Cxx,
    Assembler,
}

/// What is done with a source: it is compiled, or others include it.
#[derive(Clone, Copy, Debug, PartialEq, Eq)]
pub enum SourceKind {
    Compiled(Language),
    Header,
}

fn ends(path: &str, suffix: &str) -> bool
    ensures { result ≡ ends path.now suffix.now }
{
    path.as_bytes().ends_with(suffix.as_bytes())
}

/// What is done with a source, by the end of its path.
pub fn source_kind(path: &str) -> Option<SourceKind>
    ensures { result ≡ source_kind path.now }
{
    if ends(path, ".c") {
        Some(SourceKind::Compiled(Language::C))
    } else if ends(path, ".cc") || ends(path, ".cpp") || ends(path, ".cxx") {
        Some(SourceKind::Compiled(Language::Cxx))
    } else if ends(path, ".S") || ends(path, ".s") {
        Some(SourceKind::Compiled(Language::Assembler))
    } else if ends(path, ".h") || ends(path, ".hh") || ends(path, ".hpp") || ends(path, ".inc") {
        Some(SourceKind::Header)
    } else {
        None
    }
}

fn fault(alloc: Global, kind: FaultKind, item: &Item) -> Result<Fault, OutOfMemory>
    ensures { IfOk result (λ fault. fault ≡ source_fault kind item.now) }
{
    let subject = item.text.copy(alloc)?;
    Ok(Fault::on(alloc, kind, item.at, subject))
}

// The check of a source by its kind, and by whether its path is new.
fn check_by(
    alloc: Global,
    kind: Option<SourceKind>,
    is_new: bool,
    item: &Item,
) -> Result<(), Refusal>
    ensures { Answers (λ done. done) result (checked_by kind is_new item.now) }
{
    match kind {
        Some(SourceKind::Header) => Ok(()),
        Some(SourceKind::Compiled(_)) => {
            if !is_new {
                return Err(Refusal::Bad(fault(alloc, FaultKind::DuplicateSource, item)?));
            }
            Ok(())
        }
        None => Err(Refusal::Bad(fault(alloc, FaultKind::BadSource, item)?)),
    }
}

// A source is of a known kind, and one that is compiled is none of the earlier ones.
fn check_source<'a>(alloc: Global, earlier: &mut NameSet<'a>, item: &'a Item) -> Result<(), Refusal>
    ensures checked { Answers (λ done. done) result (source_checked earlier.old item.now) }
    ensures learned { OnOk result (Learns earlier.old item.now.text earlier.new) }
{
    let is_new = earlier.learn(item.text.as_str())?;
    let kind = source_kind(item.text.as_str());
    check_by(alloc, kind, is_new, item)
}

// The sources are of known kinds, and none is compiled twice, by a set of the earlier ones.
fn check_each(alloc: Global, items: &[Item]) -> Result<(), Refusal>
    ensures { Answers (λ done. done) result (sources_checked [] items.now) }
{
    sets_grow_with_lists();
    let mut earlier = NameSet::new(alloc);
    for item in items {
        check_source(alloc, &mut earlier, item)?;
    }
    Ok(())
}

/// The sources are of known kinds, and none is compiled twice.
pub fn check_sources(alloc: Global, items: &[Item]) -> Result<(), Refusal>
    ensures { Answers (λ done. done) result (sources_checked [] items.now) }
{
    match items {
        [item] => check_by(alloc, source_kind(item.text.as_str()), true, item),
        _ => check_each(alloc, items),
    }
}

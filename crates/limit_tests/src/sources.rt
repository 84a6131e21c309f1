//! Patterns in sources whose lists or directories are at a limit or beyond it.

use bp_faults::{Fault, Item, OutOfMemory, Path, Place, Text};
use bp_load::{ExpandError, expand};
use bp_ports::{DirEntry, Failed, ListError, ReadError, Store};
use bp_props::{Module, ModuleKind, Props, Source};
use std::alloc::Global;
use std::fmt::Write;
use std::test::Fail;

/// A store whose directory `many` has so many files, and any other has one. It tells no files.
#[derive(Drop)]
struct Wide {
    count: u32,
}

impl Store for Wide {
    ghost use Rattle.std.specs.Prelude.{None};

    ghost files = { λ _. None };

    ghost read_faults = { λ _. 0 };

    ghost write_faults = { λ _. 0 };

    fn read(&mut self, _alloc: Global, _path: &Text, _limit: u64) -> Result<Vec<u8>, ReadError> {
        Err(ReadError::Absent)
    }

    fn write(&mut self, _path: &Text, _bytes: &[u8]) -> Result<(), Failed> {
        Ok(())
    }

    fn list(&mut self, alloc: Global, dir: &Text, limit: u32) -> Result<Vec<DirEntry>, ListError> {
        let count = if dir.as_str() == "many" {
            self.count
        } else {
            1
        };
        match numbered(alloc, count) {
            Ok(entries) => {
                if entries.len() > limit as usize {
                    return Err(ListError::TooMany);
                }
                Ok(entries)
            }
            Err(_) => Err(ListError::OutOfMemory),
        }
    }
}

/// So many files.
fn numbered(alloc: Global, count: u32) -> Result<Vec<DirEntry>, OutOfMemory> {
    let mut entries = Vec::new(alloc);
    for number in 0..count {
        let mut name = String::new(alloc);
        write!(&mut name, "{number}.c")?;
        entries.push(DirEntry {
            name: Text::compact(alloc, name),
            dir: false,
        })?;
    }
    Ok(entries)
}

/// A module whose sources are these words, each in its line.
fn module_of(alloc: Global, words: &str) -> Result<Vec<Module>, OutOfMemory> {
    let mut props = Props::empty(alloc);
    let mut at = Place::start(1);
    for word in words.split(' ') {
        let text = Text::from_str(alloc, word)?;
        let item = Item { text, at };
        let named = false;
        props.base.srcs.push(alloc, Source { named, item })?;
        at.line = at.line.saturating_add(1);
    }
    let mut mods = Vec::new(alloc);
    mods.push(Module {
        name: Text::from_str(alloc, "m")?,
        kind: ModuleKind::Binary,
        dir: Path::root(alloc),
        at,
        props,
    })?;
    Ok(mods)
}

/// A fault of too many of something as a line.
fn fault_of(alloc: Global, fault: &Fault) -> Result<String, OutOfMemory> {
    let mut line = String::new(alloc);
    let number = fault.kind.number();
    let at = fault.at.line;
    let subject = fault.subject.as_str();
    write!(&mut line, "{number} {subject}@{at}")?;
    Ok(line)
}

/// How many sources a module has.
fn count_of(alloc: Global, mods: &[Module]) -> Result<String, OutOfMemory> {
    let mut line = String::new(alloc);
    for typed in mods {
        let count = typed.props.base.srcs.items().len();
        write!(&mut line, "{count}")?;
    }
    Ok(line)
}

/// The fault, or how many sources come of these words over so many files.
fn outcome(alloc: Global, count: u32, words: &str) -> Result<Option<String>, OutOfMemory> {
    let mut store = Wide { count };
    let mods = module_of(alloc, words)?;
    match expand(alloc, mods, &mut store) {
        Ok(more) => Ok(Some(count_of(alloc, more.as_slice())?)),
        Err(ExpandError::Bad(fault)) => Ok(Some(fault_of(alloc, &fault)?)),
        Err(_) => Ok(None),
    }
}

/// How many files there are, sources, and the fault or how many sources come of them. A pattern that is still to come
/// counts as one.
const MANY: [(u32, &str, &str); 8] = [
    (65_536, "many/*.c", "65536"),
    (65_537, "many/*.c", "30 list@1"),
    (65_535, "x.c many/*.c", "65536"),
    (65_536, "x.c many/*.c", "30 list@2"),
    (65_536, "many/*.c one/*.c", "30 list@1"),
    (65_535, "many/*.c one/*.c", "65536"),
    (131_072, "many/1*1.c", "4219"),
    (131_073, "many/*.c", "30 entries@1"),
];

#[test]
fn lists_and_directories_have_their_limits(rt: HostRuntime) -> Result<(), Fail> {
    let alloc = rt.alloc();
    let mut wrong = String::new(alloc);
    for (count, words, want) in &MANY {
        let found = outcome(alloc, *count, words)?;
        if found.as_deref() != Some(*want) {
            writeln!(&mut wrong, "{words} over {count} gives {found:?}")?;
        }
    }
    assert_eq!(rt; wrong.as_str(), "");
    Ok(())
}

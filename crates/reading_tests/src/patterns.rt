use bp_faults::{Fault, Item, OutOfMemory, Path, Place, Text};
use bp_load::{ExpandError, expand};
use bp_ports::{Failed, ListError, ReadError, Store};
use bp_props::{GroupId, GroupProps, Module, ModuleKind, Props, Source};
use dir_entries::DirEntry;
use std::alloc::Global;
use std::fmt::Write;
use std::test::Fail;

/// Paths as a store, which tells no files. One directory isn't listed.
#[derive(Drop)]
struct Tree<'a> {
    paths: &'a [Text],
    denied: &'a str,
    faults: u64,
    lists: u32,
}

impl<'a> Store for Tree<'a> {
    ghost use Rattle.std.specs.Prelude.{None};

    ghost files = { λ _. None };

    ghost read_faults = { λ tree. tree.faults };

    ghost write_faults = { λ _. 0 };

    fn read(&mut self, _alloc: Global, _path: &Text, _limit: u64) -> Result<Vec<u8>, ReadError> {
        Err(ReadError::Absent)
    }

    fn list(&mut self, alloc: Global, dir: &Text, limit: u32) -> Result<Vec<DirEntry>, ListError> {
        self.lists = self.lists.saturating_add(1);
        if dir.as_str() == self.denied {
            self.faults = self.faults.saturating_add(1);
            return Err(ListError::Failed);
        }
        match entries_of(alloc, self.paths, dir.as_str()) {
            Ok(entries) => {
                if entries.len() > limit as usize {
                    return Err(ListError::TooMany);
                }
                if entries.is_empty() {
                    return Err(ListError::Absent);
                }
                Ok(entries)
            }
            Err(_) => Err(ListError::OutOfMemory),
        }
    }

    fn write(&mut self, _path: &Text, _bytes: &[u8]) -> Result<(), Failed> {
        Ok(())
    }
}

/// What a path has behind a directory, if it lies below it.
fn rest_of<'a>(path: &'a str, dir: &str) -> Option<&'a str> {
    match dir {
        "" => Some(path),
        _ => path.strip_prefix(dir)?.strip_prefix("/"),
    }
}

/// The entry that a path gives a directory, by what it has behind it.
fn entry_of(alloc: Global, rest: &str) -> Result<DirEntry, OutOfMemory> {
    let (name, dir) = match rest.split_once('/') {
        Some((name, _)) => (name, true),
        None => (rest, false),
    };
    Ok(DirEntry {
        name: Text::from_str(alloc, name)?,
        dir,
    })
}

fn entries_of(alloc: Global, paths: &[Text], dir: &str) -> Result<Vec<DirEntry>, OutOfMemory> {
    let mut entries = Vec::new(alloc);
    for path in paths {
        if let Some(rest) = rest_of(path.as_str(), dir) {
            entries.push(entry_of(alloc, rest)?)?;
        }
    }
    entries.sort()?;
    entries.dedup();
    Ok(entries)
}

/// The texts of some words.
fn texts(alloc: Global, words: &[&str]) -> Result<Vec<Text>, OutOfMemory> {
    let mut texts = Vec::new(alloc);
    for word in words {
        texts.push(Text::from_str(alloc, word)?)?;
    }
    Ok(texts)
}

fn place(line: u32) -> Place {
    Place {
        file: 1,
        line,
        col: 1,
    }
}

/// A source: a word that begins with `:` is the name of a module.
fn source(alloc: Global, word: &str, line: u32) -> Result<Source, OutOfMemory> {
    let (named, text) = match word.strip_prefix(":") {
        Some(name) => (true, name),
        None => (false, word),
    };
    let text = Text::from_str(alloc, text)?;
    let at = place(line);
    Ok(Source {
        named,
        item: Item { text, at },
    })
}

/// A group whose sources are these words, in the lines from this one on.
fn group(alloc: Global, words: &str, line: u32) -> Result<GroupProps, OutOfMemory> {
    let mut group = GroupProps::empty(alloc);
    let mut line = line;
    for word in words.split(' ') {
        if !word.is_empty() {
            group.srcs.push(alloc, source(alloc, word, line)?)?;
            line = line.saturating_add(1);
        }
    }
    Ok(group)
}

/// Modules of a directory, of which one has these sources.
fn modules(alloc: Global, dir: &str, base: GroupProps) -> Result<Vec<Module>, OutOfMemory> {
    let mut props = Props::empty(alloc);
    props.base = base;
    let mut mods = Vec::new(alloc);
    mods.push(Module {
        name: Text::from_str(alloc, "m")?,
        kind: ModuleKind::Binary,
        dir: Path::new(Text::from_str(alloc, dir)?).unwrap_or(Path::root(alloc)),
        at: place(1),
        props,
    })?;
    Ok(mods)
}

/// Sources as a line, each with the line of its place and a blank.
fn write_sources(line: &mut String, sources: &[Source]) -> Result<(), OutOfMemory> {
    for source in sources {
        let sign = if source.named { ":" } else { "" };
        let text = source.item.text.as_str();
        let at = source.item.at.line;
        write!(line, "{sign}{text}@{at} ")?;
    }
    Ok(())
}

/// The sources of all modules as a line: their own, and those of their groups.
fn sources_of(alloc: Global, mods: &[Module]) -> Result<String, OutOfMemory> {
    let mut line = String::new(alloc);
    for module in mods {
        write_sources(&mut line, module.props.base.srcs.items())?;
        for (_, group) in module.props.groups.as_slice() {
            write_sources(&mut line, group.srcs.items())?;
        }
    }
    Ok(line)
}

/// A fault of too many of something as a line.
fn fault_of(alloc: Global, fault: &Fault) -> Result<String, OutOfMemory> {
    let mut line = String::new(alloc);
    let number = fault.kind.number();
    let at = fault.at.line;
    let subject = fault.subject.as_str();
    write!(line, "{number} {subject}@{at}")?;
    Ok(line)
}

/// What modules expand to over a tree, as a line.
fn outcome(
    alloc: Global,
    tree: &mut Tree<'_>,
    mods: Vec<Module>,
) -> Result<Option<String>, OutOfMemory> {
    match expand(alloc, mods, tree) {
        Ok(more) => Ok(Some(sources_of(alloc, more.as_slice())?)),
        Err(ExpandError::Bad(fault)) => Ok(Some(fault_of(alloc, &fault)?)),
        Err(ExpandError::Failed(dir)) => Ok(Some(String::from_str(alloc, dir.as_str())?)),
        Err(ExpandError::OutOfMemory) => Ok(None),
    }
}

/// The paths of the small tree.
const PATHS: [&str; 11] = [
    "src/b.c",
    "src/a.c",
    "src/x/c.c",
    "src/.h.c",
    "src/.d/e.c",
    "src/y|z/f.c",
    "src/x/g|.c",
    "src/x/h*.c",
    "src/x/i\u{1}.c",
    "s*r/a.c",
    "Android.bp",
];

/// The directory of a module, its sources, and what they expand to, each with its line.
const ROWS: [(&str, &str, &str); 16] = [
    ("", "src/**/*.c", "src/a.c@1 src/b.c@1 src/x/c.c@1 "),
    ("", "no/*.c", ""),
    ("", "src/*.o x.c", "x.c@2 "),
    ("", "src/*.c src/a*", "src/a.c@1 src/b.c@1 "),
    ("", "src/a* src/*.c", "src/a.c@1 src/b.c@2 "),
    ("", "src/x/*.c src/*.c", "src/x/c.c@1 src/a.c@2 src/b.c@2 "),
    ("", "src/b.c src/*.c", "src/b.c@1 src/a.c@2 "),
    ("", "src/*.c src/b.c", "src/a.c@1 src/b.c@1 src/b.c@2 "),
    ("", ":src/b.c src/*.c", ":src/b.c@1 src/a.c@2 src/b.c@2 "),
    ("", ":src/*.c", ":src/*.c@1 "),
    ("", "src/.*.c", "src/.h.c@1 "),
    ("", "*", "Android.bp@1 "),
    ("src", "src/**/*.c", "src/a.c@1 src/b.c@1 src/x/c.c@1 "),
    ("s*r", "s*r/a.c s*r/no.c", "s*r/a.c@1 s*r/no.c@2 "),
    ("s*r", "s*r/*.c", "s*r/a.c@1 "),
    ("src", "other/*.c", "other/*.c@1 "),
];

fn tree_of<'a>(paths: &'a [Text], denied: &'a str) -> Tree<'a> {
    Tree {
        paths,
        denied,
        faults: 0,
        lists: 0,
    }
}

/// Adds a line for a case that gives something else than it should.
fn check(
    wrong: &mut String,
    case: &str,
    found: Option<&str>,
    want: &str,
) -> Result<(), OutOfMemory> {
    if found != Some(want) {
        writeln!(wrong, "{case} gives {found:?}, not {want}")?;
    }
    Ok(())
}

#[test]
fn patterns_are_replaced_by_their_matches(rt: HostRuntime) -> Result<(), Fail> {
    let alloc = rt.alloc();
    let paths = texts(alloc, &PATHS)?;
    let mut wrong = String::new(alloc);
    for (dir, words, want) in &ROWS {
        let mut tree = tree_of(paths.as_slice(), "-");
        let mods = modules(alloc, dir, group(alloc, words, 1)?)?;
        let found = outcome(alloc, &mut tree, mods)?;
        check(&mut wrong, words, found.as_deref(), want)?;
    }
    assert_eq!(rt; wrong.as_str(), "");
    Ok(())
}

/// A module whose groups have sources, in the lines from 10 on.
fn grouped(alloc: Global) -> Result<Vec<Module>, OutOfMemory> {
    let mut base = group(alloc, "src/x/*.c", 1)?;
    base.cflags.push(alloc, Text::from_str(alloc, "-c")?)?;
    let mut mods = modules(alloc, "", base)?;
    let mut more = modules(alloc, "", group(alloc, "src/a*", 2)?)?;
    for module in more.iter_mut() {
        let groups = &mut module.props.groups;
        groups.insert(GroupId::Shared, group(alloc, "x.c src/a*", 10)?)?;
        groups.insert(GroupId::Android, group(alloc, "src/b* y.c", 20)?)?;
        groups.insert(GroupId::Host, group(alloc, "z.c", 30)?)?;
    }
    for module in more {
        mods.push(module)?;
    }
    Ok(mods)
}

/// `src/x` is listed first. What the second module has of its own and what its groups have is listed once.
#[test]
fn groups_are_expanded_and_directories_listed_once(rt: HostRuntime) -> Result<(), Fail> {
    let alloc = rt.alloc();
    let paths = texts(alloc, &PATHS)?;
    let mut tree = tree_of(paths.as_slice(), "-");
    let found = outcome(alloc, &mut tree, grouped(alloc)?)?;
    let want = "src/x/c.c@1 src/a.c@2 src/b.c@20 y.c@21 z.c@30 x.c@10 src/a.c@11 ";
    assert_eq!(rt; found.as_deref(), Some(want));
    assert_eq!(rt; tree.lists, 2);
    Ok(())
}

/// A pattern, what it comes to where `src/x` isn't listed, and how often directories were.
const FAILING: [(&str, &str, u32); 4] = [
    ("src/*.c", "src/a.c@1 src/b.c@1 ", 1),
    ("src/**/*.c", "src/x", 2),
    ("src/x/*.c src/*.c", "src/x", 1),
    ("src/x/c.c", "src/x/c.c@1 ", 0),
];

#[test]
fn a_directory_that_is_not_listed_is_told(rt: HostRuntime) -> Result<(), Fail> {
    let alloc = rt.alloc();
    let paths = texts(alloc, &PATHS)?;
    let mut wrong = String::new(alloc);
    for (words, want, lists) in &FAILING {
        let mut tree = tree_of(paths.as_slice(), "src/x");
        let mods = modules(alloc, "", group(alloc, words, 1)?)?;
        let found = outcome(alloc, &mut tree, mods)?;
        check(&mut wrong, words, found.as_deref(), want)?;
        if tree.lists != *lists {
            writeln!(&mut wrong, "{words} lists {}", tree.lists)?;
        }
    }
    assert_eq!(rt; wrong.as_str(), "");
    Ok(())
}

/// A file below this many directories.
fn deep_path(alloc: Global, depth: u32) -> Result<Text, OutOfMemory> {
    let mut path = Text::from_str(alloc, "")?;
    for _ in 0..depth {
        path.push_str("d/")?;
    }
    path.push_str("f.c")?;
    Ok(path)
}

/// How many sources come of `**/*.c` over a file below this many directories.
fn deep_sources(alloc: Global, depth: u32) -> Result<Option<usize>, OutOfMemory> {
    let mut paths = Vec::new(alloc);
    paths.push(deep_path(alloc, depth)?)?;
    let mut tree = tree_of(paths.as_slice(), "-");
    let mods = modules(alloc, "", group(alloc, "**/*.c", 1)?)?;
    let found = outcome(alloc, &mut tree, mods)?;
    Ok(found.map(|line| line.split(' ').count()))
}

#[test]
fn two_stars_stand_for_at_most_64_names(rt: HostRuntime) -> Result<(), Fail> {
    assert_eq!(rt; deep_sources(rt.alloc(), 64)?, Some(2));
    assert_eq!(rt; deep_sources(rt.alloc(), 65)?, Some(1));
    Ok(())
}

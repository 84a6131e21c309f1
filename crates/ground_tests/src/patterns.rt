use crate::rows::check_row;
use bp_faults::{OutOfMemory, Path, Text};
use dir_entries::DirEntry;
use path_patterns::{DirError, Directories, WalkError, find_matches, has_star};
use std::alloc::Global;
use std::test::Fail;

/// Paths as directories, of which one isn't read and one has too many entries.
#[derive(Drop)]
struct Tree<'a> {
    alloc: Global,
    paths: &'a [Text],
    denied: &'a str,
    wide: &'a str,
    faults: u64,
    reads: u32,
    last: Vec<DirEntry>,
}

impl<'a> Directories for Tree<'a> {
    ghost use Rattle.std.specs.Prelude.{None, ⊤};

    ghost held = { λ _. None };

    ghost faults = { λ tree. tree.faults };

    ghost last = { λ tree. tree.last.items };

    ghost Kept = { ⊤ };

    ghost kept = { λ _. tt };

    ghost IsReady = { λ _. ⊤ };

    fn read(&mut self, dir: &Text) -> Result<(), DirError> {
        self.reads = self.reads.saturating_add(1);
        if dir.as_str() == self.denied {
            self.faults = self.faults.saturating_add(1);
            return Err(DirError::Failed);
        }
        if dir.as_str() == self.wide {
            return Err(DirError::TooMany);
        }
        match entries_of(self.alloc, self.paths, dir.as_str()) {
            Ok(entries) => {
                self.last = entries;
                Ok(())
            }
            Err(_) => Err(DirError::OutOfMemory),
        }
    }

    fn entries(&self) -> &[DirEntry] {
        self.last.as_slice()
    }
}

/// What a path has behind a directory, if it lies below it.
fn rest_of<'a>(path: &'a str, dir: &str) -> Option<&'a str> {
    match dir {
        "" => Some(path),
        _ => path.strip_prefix(dir)?.strip_prefix("/"),
    }
}

/// The entry that a path gives a directory, by what it has behind it.
fn entry_of(alloc: Global, rest: &str) -> Result<DirEntry, OutOfMemory> {
    let (name, dir) = match rest.split_once('/') {
        Some((name, _)) => (name, true),
        None => (rest, false),
    };
    Ok(DirEntry {
        name: Text::from_str(alloc, name)?,
        dir,
    })
}

fn entries_of(alloc: Global, paths: &[Text], dir: &str) -> Result<Vec<DirEntry>, OutOfMemory> {
    let mut entries = Vec::new(alloc);
    for path in paths {
        if let Some(rest) = rest_of(path.as_str(), dir) {
            entries.push(entry_of(alloc, rest)?)?;
        }
    }
    entries.sort()?;
    entries.dedup();
    Ok(entries)
}

/// The texts of some words.
fn texts(alloc: Global, words: &[&str]) -> Result<Vec<Text>, OutOfMemory> {
    let mut texts = Vec::new(alloc);
    for word in words {
        texts.push(Text::from_str(alloc, word)?)?;
    }
    Ok(texts)
}

/// Words with blanks between them.
fn spaced(alloc: Global, words: &[Text]) -> Result<String, OutOfMemory> {
    let mut line = String::new(alloc);
    for word in words {
        line.push_str(word.as_str())?;
        line.push_str(" ")?;
    }
    Ok(line)
}

/// What a pattern comes to over a tree, as a line, with a blank behind each match.
fn outcome(
    alloc: Global,
    tree: &mut Tree<'_>,
    dir: &str,
    tail: &str,
) -> Result<Option<String>, OutOfMemory> {
    let Some(dir) = Path::new(Text::from_str(alloc, dir)?) else {
        return Ok(None);
    };
    if !has_star(tail) {
        return Ok(None);
    }
    match find_matches(alloc, tree, &dir, tail) {
        Ok(found) => Ok(Some(spaced(alloc, found.as_slice())?)),
        Err(WalkError::TooMany) => Ok(Some(String::from_str(alloc, "too many")?)),
        Err(WalkError::Failed(failed)) => Ok(Some(String::from_str(alloc, failed.as_str())?)),
        Err(WalkError::OutOfMemory) => Ok(None),
    }
}

/// The paths of the small tree.
const PATHS: [&str; 13] = [
    "src/b.c",
    "src/a.c",
    "src/x/c.c",
    "src/x",
    "src/.h.c",
    "src/.d/e.c",
    "src/y|z/f.c",
    "src/x/g|.c",
    "src/x/h*.c",
    "src/x/i\u{1}.c",
    "other/a.c",
    "s*r/a.c",
    "src/./j.c",
];

/// A directory, a pattern in it, and its matches, each with a blank behind it.
const ROWS: [(&str, &str, &str); 18] = [
    ("", "src/*.c", "src/a.c src/b.c "),
    ("", "src/**/*.c", "src/a.c src/b.c src/x/c.c "),
    ("", "src/*", "src/a.c src/b.c src/x "),
    ("", "src/*x", "src/x "),
    ("", "src/.*.c", "src/.h.c "),
    ("", "src/.*/*.c", "src/.d/e.c "),
    ("", "*/a.c", "other/a.c src/a.c "),
    ("", "**/a.c", "other/a.c src/a.c "),
    ("", "**/x/**/c.c", "src/x/c.c "),
    ("", "s*/x/*", "src/x/c.c "),
    ("", "src/**", "src/a.c src/b.c src/x "),
    ("", "src/*/", ""),
    ("", "src/../*/a.c", ""),
    ("", "no/*.c", ""),
    ("src", "*.c", "src/a.c src/b.c "),
    ("src", "**/*.c", "src/a.c src/b.c src/x/c.c "),
    ("s*r", "*.c", "s*r/a.c "),
    ("src/x", "c*c", "src/x/c.c "),
];

fn tree_of<'a>(alloc: Global, paths: &'a [Text], denied: &'a str, wide: &'a str) -> Tree<'a> {
    Tree {
        alloc,
        paths,
        denied,
        wide,
        faults: 0,
        reads: 0,
        last: Vec::new(alloc),
    }
}

#[test]
fn patterns_have_their_matches(rt: HostRuntime) -> Result<(), Fail> {
    let alloc = rt.alloc();
    let paths = texts(alloc, &PATHS)?;
    let mut wrong = String::new(alloc);
    for (dir, tail, matches) in &ROWS {
        let mut small = tree_of(alloc, paths.as_slice(), "-", "-");
        let found = outcome(alloc, &mut small, dir, tail)?;
        check_row(&mut wrong, (*dir, *tail), found.as_deref(), Some(*matches))?;
    }
    assert_eq!(rt; wrong.as_str(), "");
    Ok(())
}

/// A pattern, and its outcome where `src/x` has too many entries and `other` isn't read.
const FAULTY: [(&str, &str); 4] = [
    ("src/*.c", "src/a.c src/b.c "),
    ("src/**/*.c", "too many"),
    ("other/*.c", "other"),
    ("o*/**/*.c", "other"),
];

#[test]
fn only_walked_directories_are_read(rt: HostRuntime) -> Result<(), Fail> {
    let alloc = rt.alloc();
    let paths = texts(alloc, &PATHS)?;
    let mut wrong = String::new(alloc);
    for (tail, want) in &FAULTY {
        let mut small = tree_of(alloc, paths.as_slice(), "other", "src/x");
        let found = outcome(alloc, &mut small, "", tail)?;
        check_row(&mut wrong, *tail, found.as_deref(), Some(*want))?;
    }
    assert_eq!(rt; wrong.as_str(), "");
    Ok(())
}

/// How many directories are read for a pattern.
fn reads(alloc: Global, tail: &str) -> Result<u32, OutOfMemory> {
    let paths = texts(alloc, &PATHS)?;
    let mut small = tree_of(alloc, paths.as_slice(), "-", "-");
    outcome(alloc, &mut small, "", tail)?;
    Ok(small.reads)
}

/// `src` and, of what is in it, `x` and `y|z`, which are walked, though nothing in `y|z` matches.
#[test]
fn a_directory_is_read_once(rt: HostRuntime) -> Result<(), Fail> {
    assert_eq!(rt; reads(rt.alloc(), "src/**/*.c")?, 3);
    assert_eq!(rt; reads(rt.alloc(), "no/*.c")?, 1);
    Ok(())
}

/// A file below this many directories.
fn deep_path(alloc: Global, depth: u32) -> Result<Text, OutOfMemory> {
    let mut path = Text::from_str(alloc, "")?;
    for _ in 0..depth {
        path.push_str("d/")?;
    }
    path.push_str("f.c")?;
    Ok(path)
}

/// Whether `**` leads to a file below this many directories.
fn leads_to(alloc: Global, depth: u32) -> Result<bool, OutOfMemory> {
    let mut paths = Vec::new(alloc);
    paths.push(deep_path(alloc, depth)?)?;
    let mut deep = tree_of(alloc, paths.as_slice(), "-", "-");
    let found = outcome(alloc, &mut deep, "", "**/*.c")?;
    Ok(found.is_some_and(|line| !line.is_empty()))
}

#[test]
fn two_stars_stand_for_at_most_64_names(rt: HostRuntime) -> Result<(), Fail> {
    assert_eq!(rt; leads_to(rt.alloc(), 64)?, true);
    assert_eq!(rt; leads_to(rt.alloc(), 65)?, false);
    Ok(())
}

/// Whether a name of 255 letters `a` fits 64 times `*a`, and then this.
fn fits_many(alloc: Global, end: &str) -> Result<bool, OutOfMemory> {
    let name = "a".repeat(alloc, 255)?;
    let paths = texts(alloc, &[name.as_str()])?;
    let mut one = tree_of(alloc, paths.as_slice(), "-", "-");
    let mut pattern = "*a".repeat(alloc, 64)?;
    pattern.push_str(end)?;
    let found = outcome(alloc, &mut one, "", pattern.as_str())?;
    Ok(found.is_some_and(|line| !line.is_empty()))
}

#[test]
fn many_stars_take_few_steps(rt: HostRuntime) -> Result<(), Fail> {
    assert_eq!(rt; fits_many(rt.alloc(), "")?, true);
    assert_eq!(rt; fits_many(rt.alloc(), "b")?, false);
    Ok(())
}

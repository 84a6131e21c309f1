use crate::rows::check_row;
use bp_faults::{
    Fault, FaultKind, Item, ModuleId, NodeId, OutOfMemory, Path, Payload, Place, Refusal, Seq,
    Target, Text, fault_line, is_barred_in_paths, is_control,
};
use std::alloc::Global;
use std::test::Fail;

fn text(alloc: Global, word: &str) -> Result<Text, OutOfMemory> {
    Text::from_str(alloc, word)
}

fn copied<P: Payload>(alloc: Global, value: &P) -> Result<P, OutOfMemory> {
    value.copy(alloc)
}

fn place(file: u32, line: u32, col: u32) -> Place {
    Place { file, line, col }
}

/// The texts of some words.
fn texts(alloc: Global, words: &[&str]) -> Result<Vec<Text>, OutOfMemory> {
    let mut texts = Vec::new(alloc);
    for word in words {
        texts.push(text(alloc, word)?)?;
    }
    Ok(texts)
}

/// How a copy of the fault is printed, if it equals the fault.
fn printed(alloc: Global, fault: &Fault) -> Result<Option<String>, OutOfMemory> {
    let files = texts(alloc, &["list", "a/Android.bp"])?;
    let copy = copied(alloc, fault)?;
    if copy == *fault {
        Ok(Some(fault_line(alloc, &copy, files.as_slice())?))
    } else {
        Ok(None)
    }
}

/// How a fault of a subject is printed.
fn printed_on(
    alloc: Global,
    kind: FaultKind,
    at: Place,
    subject: &str,
) -> Result<Option<String>, OutOfMemory> {
    printed(alloc, &Fault::on(alloc, kind, at, text(alloc, subject)?))
}

#[test]
fn faults_are_printed_with_their_subjects(rt: HostRuntime) -> Result<(), Fail> {
    let line = printed_on(rt.alloc(), FaultKind::BadList, place(0, 1, 1), "../x")?;
    let want = "list:1:1: error 33: bad path in list: ../x\n";
    assert_eq!(rt; line.as_ref().map(|line| line.as_str()), Some(want));
    let line = printed_on(
        rt.alloc(),
        FaultKind::BadChar,
        place(2, 30, 4),
        "\u{1b}[é\u{7f}",
    )?;
    let want = ":30:4: error 2: unexpected character: ?[é?\n";
    assert_eq!(rt; line.as_ref().map(|line| line.as_str()), Some(want));
    Ok(())
}

/// How a fault with no subject is printed.
fn printed_alone(alloc: Global, kind: FaultKind, at: Place) -> Result<Option<String>, OutOfMemory> {
    printed(alloc, &Fault::at(alloc, kind, at))
}

#[test]
fn a_fault_is_printed_with_no_subject(rt: HostRuntime) -> Result<(), Fail> {
    let line = printed_alone(rt.alloc(), FaultKind::NoFile, place(1, 1, 1))?;
    let want = "a/Android.bp:1:1: error 31: no such file\n";
    assert_eq!(rt; line.as_ref().map(|line| line.as_str()), Some(want));
    Ok(())
}

/// How a cycle of these nodes is printed.
fn printed_cycle(alloc: Global, at: Place, nodes: &[&str]) -> Result<Option<String>, OutOfMemory> {
    let cycle = Fault {
        kind: FaultKind::Cycle,
        at,
        subject: text(alloc, "")?,
        chain: Seq::new(texts(alloc, nodes)?),
    };
    printed(alloc, &cycle)
}

#[test]
fn a_cycle_is_printed_with_its_chain(rt: HostRuntime) -> Result<(), Fail> {
    let nodes = &["a{static}", "b{static}", "a{static}"];
    let line = printed_cycle(rt.alloc(), place(1, 1, 46), nodes)?;
    let want =
        "a/Android.bp:1:46: error 23: dependency cycle: a{static} -> b{static} -> a{static}\n";
    assert_eq!(rt; line.as_ref().map(|line| line.as_str()), Some(want));
    Ok(())
}

/// How many characters the line of a fault has whose subject has this many.
fn printed_length(alloc: Global, count: usize) -> Result<usize, OutOfMemory> {
    let files = texts(alloc, &["list", "a/Android.bp"])?;
    let long = Text::new("é".repeat(alloc, count)?);
    let fault = Fault::on(alloc, FaultKind::BadName, place(1, 1, 1), long);
    Ok(fault_line(alloc, &fault, files.as_slice())?.chars().count())
}

#[test]
fn a_long_subject_is_cut(rt: HostRuntime) -> Result<(), Fail> {
    // 45 characters before the subject, 80 of it, and LF
    assert_eq!(rt; printed_length(rt.alloc(), 81)?, 45 + 80 + 1);
    Ok(())
}

/// Whether the path, its copy and its text are all this word.
fn keeps(alloc: Global, path: &Path, word: &str) -> Result<bool, OutOfMemory> {
    let copy = copied(alloc, path)?;
    let is_same = copy == *path && path.as_text().as_str() == path.as_str();
    Ok(is_same && copy.into_text().as_str() == word)
}

/// Whether the word is a normal path, which a copy keeps.
fn takes_path(alloc: Global, word: &str) -> Result<bool, OutOfMemory> {
    match Path::new(text(alloc, word)?) {
        Some(path) => keeps(alloc, &path, word),
        None => Ok(false),
    }
}

const WORDS: &[(&str, bool)] = &[
    ("", true),
    ("a/Android.bp", true),
    ("...", true),
    ("a//b", false),
    ("/a", false),
    ("a/", false),
    ("a/./b", false),
    ("..", false),
];

// The words that are wrongly normal paths, or aren't.
fn wrongly_normal(alloc: Global) -> Result<String, OutOfMemory> {
    let mut wrong = String::new(alloc);
    for (word, want) in WORDS {
        let found = takes_path(alloc, word)?;
        check_row(&mut wrong, *word, found, *want)?;
    }
    Ok(wrong)
}

#[test]
fn paths_are_normal_and_are_copied(rt: HostRuntime) -> Result<(), Fail> {
    let wrong = wrongly_normal(rt.alloc())?;
    assert!(rt; wrong.is_empty(), "{wrong}");
    Ok(())
}

#[test]
fn the_root_is_the_empty_path(rt: HostRuntime) -> Result<(), Fail> {
    assert_eq!(rt; Path::root(rt.alloc()).as_str(), "");
    Ok(())
}

/// A text of so many letters that is put together letter by letter, in a text with room for `room` bytes.
fn letters(alloc: Global, room: usize, count: u32) -> Result<Text, OutOfMemory> {
    let mut text = Text::with_room(alloc, room)?;
    for _letter in 0..count {
        text.push_str("a")?;
    }
    Ok(text)
}

/// Whether such a text, its copy and one that is made of its string are the same.
fn is_same_text(alloc: Global, room: usize, count: u32) -> Result<bool, OutOfMemory> {
    let text = letters(alloc, room, count)?;
    let string = "a".repeat(alloc, count as usize)?;
    let copy = copied(alloc, &text)?;
    Ok(text == Text::compact(alloc, string) && text == copy)
}

/// Rooms and lengths on both sides of the longest short text.
const LENGTHS: &[(usize, u32)] = &[
    (0, 0),
    (0, 16),
    (16, 16),
    (0, 17),
    (16, 17),
    (17, 3),
    (17, 40),
];

// The rooms and lengths of which texts differ.
fn wrongly_long(alloc: Global) -> Result<String, OutOfMemory> {
    let mut wrong = String::new(alloc);
    for (room, count) in LENGTHS {
        let found = is_same_text(alloc, *room, *count)?;
        check_row(&mut wrong, (*room, *count), found, true)?;
    }
    Ok(wrong)
}

#[test]
fn short_texts_grow_long(rt: HostRuntime) -> Result<(), Fail> {
    let wrong = wrongly_long(rt.alloc())?;
    assert!(rt; wrong.is_empty(), "{wrong}");
    Ok(())
}

/// A sequence of one item.
fn one_item(alloc: Global, word: &str) -> Result<Seq<Item>, OutOfMemory> {
    let mut seq = Seq::new(Vec::new(alloc));
    seq.push(Item {
        text: text(alloc, word)?,
        at: Place::start(1),
    })?;
    Ok(seq)
}

/// Whether a sequence of one item equals its copy.
fn copies_item(alloc: Global, word: &str) -> Result<bool, OutOfMemory> {
    let seq = one_item(alloc, word)?;
    Ok(copied(alloc, &seq)? == seq)
}

/// How many items a sequence of one has when it is cut after three, and then after none.
fn cut_lengths(alloc: Global, word: &str) -> Result<(usize, usize, usize), OutOfMemory> {
    let mut seq = one_item(alloc, word)?;
    seq.truncate(3);
    let long = seq.as_slice().len();
    seq.truncate(0);
    Ok((long, seq.as_slice().len(), seq.into_vec().len()))
}

#[test]
fn sequences_are_copied_and_cut(rt: HostRuntime) -> Result<(), Fail> {
    assert!(rt; copies_item(rt.alloc(), "x")?);
    assert_eq!(rt; cut_lengths(rt.alloc(), "x")?, (1, 0, 0));
    Ok(())
}

/// The text of a word, with another behind it.
fn joined(alloc: Global, word: &str, more: &str) -> Result<Text, OutOfMemory> {
    let mut joined = text(alloc, word)?;
    joined.push_str(more)?;
    Ok(joined)
}

#[test]
fn texts_grow(rt: HostRuntime) -> Result<(), Fail> {
    assert_eq!(rt; joined(rt.alloc(), "é", "a")?.as_str(), "éa");
    Ok(())
}

#[test]
fn numbers_are_copied(rt: HostRuntime) -> Result<(), Fail> {
    let node = copied(rt.alloc(), &NodeId(3))?;
    let module = copied(rt.alloc(), &ModuleId(4))?;
    assert!(rt; node == NodeId(3) && module == ModuleId(4));
    assert_eq!(rt; Target::LinuxGlibcX86.name(), "linux_glibc_x86");
    Ok(())
}

const CHARACTERS: &[(char, bool, bool)] = &[
    ('\u{1f}', true, true),
    (' ', false, false),
    ('|', false, true),
    ('\u{7f}', true, true),
    ('\u{80}', false, false),
];

// The characters that are wrongly control characters, or wrongly barred in paths.
fn wrongly_barred(alloc: Global) -> Result<String, OutOfMemory> {
    let mut wrong = String::new(alloc);
    for (c, control, barred) in CHARACTERS {
        let found = (is_control(*c), is_barred_in_paths(*c));
        check_row(&mut wrong, *c, found, (*control, *barred))?;
    }
    Ok(wrong)
}

#[test]
fn characters_are_barred(rt: HostRuntime) -> Result<(), Fail> {
    let wrong = wrongly_barred(rt.alloc())?;
    assert!(rt; wrong.is_empty(), "{wrong}");
    Ok(())
}

#[test]
fn places_and_targets_are_ordered(rt: HostRuntime) -> Result<(), Fail> {
    assert!(rt; place(1, 9, 1) < place(2, 1, 1) && place(1, 1, 40) < place(1, 2, 1));
    assert!(rt; Target::AndroidX86_64 < Target::AndroidX86);
    Ok(())
}

/// A refusal of each kind, and the lack of memory, as they are printed.
fn refusals(alloc: Global) -> Result<String, OutOfMemory> {
    let bad = Refusal::Bad(Fault::at(alloc, FaultKind::NoFile, Place::start(1)));
    let short = Refusal::from(OutOfMemory);
    Ok(format!(in alloc; "{bad}, {short}, {OutOfMemory}")?)
}

#[test]
fn refusals_are_printed(rt: HostRuntime) -> Result<(), Fail> {
    assert_eq!(rt;
        refusals(rt.alloc())?.as_str(),
        "the input has a fault, out of memory, out of memory"
    );
    Ok(())
}

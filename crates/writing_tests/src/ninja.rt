ghost use Rattle.std.specs.Prelude.{◌≤◌};

use bp_faults::{OutOfMemory, Seq, Text};
use ninja_text::laws::{written_alike, written_and_read};
use ninja_text::{
    NinjaError, NinjaFile, Statement, WriteError, is_well_formed, read, write, write_in,
};
use std::alloc::Global;
use std::process::Abort;
use std::test::Fail;
use std::thread::Threads;

/// A text, and what `write` makes of the file that it stands for, or the line that is refused.
type Case = (&'static [u8], Result<&'static str, u32>);

const HEAD: usize = b"# build.ninja written by bpgen\n".len();

/// What stands behind the first line of a text.
fn behind_head(text: &[u8]) -> Option<&str> {
    let (_, rest) = text.split_at_checked(HEAD)?;
    str::from_utf8(rest).ok()
}

/// What `write` makes of a file, behind its first line.
fn written(alloc: Global, file: &NinjaFile) -> Result<String, Fail> {
    let text = write(alloc, file)?;
    let rest = behind_head(text.as_slice());
    Ok(String::from_str(alloc, rest.unwrap_or("no head"))?)
}

/// What `write` makes of the file of a short text, or the line that is refused.
fn came_of(alloc: Global, text: &[u8]) -> Result<Result<String, u32>, Fail> {
    if text.len() > 1000 {
        return Err(Fail::new("over 1,000 bytes"));
    }
    match read(alloc, text) {
        Ok(file) => Ok(Ok(written(alloc, &file)?)),
        Err(NinjaError::BadLine(line)) => Ok(Err(line)),
        Err(NinjaError::OutOfMemory) => Err(Fail::from(OutOfMemory)),
    }
}

/// What comes back of the file of a short text, where the file is well formed.
fn come_back(alloc: Global, text: &[u8]) -> Result<Option<String>, Fail> {
    if text.len() > 1000 {
        return Err(Fail::new("over 1,000 bytes"));
    }
    let file = read(alloc, text)?;
    if !is_well_formed(alloc, &file)? {
        return Ok(None);
    }
    let back = written_and_read(alloc, &file)??;
    Ok(Some(written(alloc, &back)?))
}

// Texts that are read, in the spirit of Ninja's own tests of its manifest parser and lexer.
const READ: [Case; 34] = [
    (b"", Ok("")),
    (b"\n  \n# a comment\n   # another\n", Ok("")),
    (b"# joined $\nbogus\n", Ok("")),
    (
        b"rule cat\n  command = cat $in > $out\n\nbuild result: cat in_1.cc in-2.O\n",
        Ok("rule cat\n  command = cat ${in} > ${out}\nbuild result: cat in_1.cc in-2.O\n"),
    ),
    (
        b"rule cc\n  deps = gcc\n  depfile = ${out}.d\n  command = cc\n  description = CC $out\n",
        Ok(
            "rule cc\n  deps = gcc\n  depfile = ${out}.d\n  command = cc\n  description = CC ${out}\n",
        ),
    ),
    (
        b"  # indented\nrule cat\n  command = x\n  # generator = 1\n  \n  description = y\n",
        Ok("rule cat\n  command = x\n  description = y\n"),
    ),
    (
        b"rule link\n  command = foo bar $\n      baz\n\nbuild a: link c $\n d e f\n",
        Ok("rule link\n  command = foo bar baz\nbuild a: link c d e f\n"),
    ),
    (
        b"rule r\n  command = a\\b # c\n",
        Ok("rule r\n  command = a\\b # c\n"),
    ),
    (
        b"rule r\n  command = ${out}bar$$baz$$$\n  blah\n",
        Ok("rule r\n  command = ${out}bar$$baz$$blah\n"),
    ),
    (
        b"build foo$ bar: phony $$one two$$$ three a$:b\n",
        Ok("build foo$ bar: phony $$one two$$$ three a$:b\n"),
    ),
    (
        b"build ./a: phony ../b/./c\n",
        Ok("build ./a: phony ../b/./c\n"),
    ),
    (
        b"build a: phony b | c d || e f\n",
        Ok("build a: phony b | c d || e f\n"),
    ),
    (b"build a: phony | b\n", Ok("build a: phony | b\n")),
    (b"build a: phony || b\n", Ok("build a: phony || b\n")),
    (b"build a b  c : phony\n", Ok("build a b c: phony\n")),
    (b"build   a:phony   b  \n", Ok("build a: phony b\n")),
    (b"bu$\nild a: ph$\n    ony b\n", Ok("build a: phony b\n")),
    (
        b"rule build\n  command = x\nrule rule\n  command = y\nbuild default: build include\n\
            build rule: rule subninja\ndefault default rule\n",
        Ok(
            "rule build\n  command = x\nrule rule\n  command = y\nbuild default: build include\n\
                build rule: rule subninja\ndefault default rule\n",
        ),
    ),
    (
        b"rule r\n  command   =   x  \n",
        Ok("rule r\n  command = x  \n"),
    ),
    (b"rule r\n command=x\n", Ok("rule r\n  command = x\n")),
    (b"rule r\n  command =\n", Ok("rule r\n  command = \n")),
    (
        b"rule r  \n  command = $ x\n",
        Ok("rule r\n  command = $ x\n"),
    ),
    (
        b"rule r\n  command = $a-$b_1$$c${d}e\n",
        Ok("rule r\n  command = ${a}-${b_1}$$c${d}e\n"),
    ),
    (
        b"rule r\n  command = a$ b$:c d:e|f\n",
        Ok("rule r\n  command = a b:c d:e|f\n"),
    ),
    (
        b"rule r\n  command = a\tb\n",
        Ok("rule r\n  command = a\tb\n"),
    ),
    (
        b"build a: phony\n  k = v = w\n  k_2 =x|:y\n",
        Ok("build a: phony\n  k = v = w\n  k_2 = x|:y\n"),
    ),
    (
        b"build a: phony\n  v = x$$\n  w = y\n",
        Ok("build a: phony\n  v = x$$\n  w = y\n"),
    ),
    (
        b"build a: phony\ndefault a\n  k = v\n",
        Ok("build a: phony\n  k = v\ndefault a\n"),
    ),
    (
        b"default a\nbuild a: phony\n",
        Ok("build a: phony\ndefault a\n"),
    ),
    (
        b"build a: phony\nbuild b: phony a\ndefault b\ndefault  a\n",
        Ok("build a: phony\nbuild b: phony a\ndefault b a\n"),
    ),
    (b"build a: phony b", Ok("build a: phony b\n")),
    (
        b"build a: phony $\n\nbuild b: phony $\n  $\n   c\n",
        Ok("build a: phony\nbuild b: phony c\n"),
    ),
    (
        b"build \xc3\xbc$ \xe2\x82\xac: phony \xf0\x9f\x98\x80\n",
        Ok("build ü$ €: phony 😀\n"),
    ),
    (
        b"rule r\n  command = x\nbuild a: r\n  command = y\n",
        Ok("rule r\n  command = x\nbuild a: r\n  command = y\n"),
    ),
];

// Texts that are refused.
const REFUSED: [Case; 58] = [
    (b"bogus", Err(1)),
    (b"foobar\n", Err(1)),
    (b"x 3\n", Err(1)),
    (b"# c\nfoo = bar\n", Err(2)),
    (b"include x\n", Err(1)),
    (b"subninja x\n", Err(1)),
    (b"pool p\n  depth = 1\n", Err(1)),
    (b"rule\n", Err(1)),
    (b"rule \n", Err(1)),
    (b"rule %foo\n  command = x\n", Err(1)),
    (b"rule a b\n  command = x\n", Err(1)),
    (b"rule phony\n  command = x\n", Err(1)),
    (b"rule r\r\n  command = x\r\n", Err(1)),
    (b"rule cat\n", Err(1)),
    (b"rule r\n  description = x\n", Err(1)),
    (b"rule r\n  bogus = x\n", Err(1)),
    (b"rule r\n  bogus = x\n  command = y\n", Err(2)),
    (b"rule r\nbuild a: phony\n  command = y\n", Err(1)),
    (b"rule r\n  command = $\n", Err(2)),
    (b"rule r\n  command = $", Err(2)),
    (b"rule r\n  command = ${a b}\n", Err(2)),
    (b"rule r\n  command = ${}\n", Err(2)),
    (b"rule r\n  command = ${fafsd\nfoo = bar\n", Err(2)),
    (b"rule r\n  command = a$-b\n", Err(2)),
    (b"rule r\n  command = a\n  && bar\n", Err(3)),
    (b"rule r\n  command = a\n  othervar = b\n", Err(3)),
    (b"rule r\n  command = a\n  command = b\n", Err(3)),
    (b"rule r\n  command = a\n  \n\n  = b\n", Err(5)),
    (b"rule r\n  command = a\n  depfile b\n", Err(3)),
    (b"rule r\n  command = a\n\tdeps = b\n", Err(3)),
    (b"rule r\n  command = a\nrule r\n  command = b\n", Err(3)),
    (b"build a: r\nrule r\n  command = x\n", Err(1)),
    (b"build\n", Err(1)),
    (b"build a\n", Err(1)),
    (b"build a:\n", Err(1)),
    (b"build : phony\n", Err(1)),
    (b"build a: nonesuch b\n", Err(1)),
    (b"build a:: phony b\n", Err(1)),
    (b"build a: phony b:c\n", Err(1)),
    (b"build a: phony b $\n :\n", Err(1)),
    (b"build $.: phony\n", Err(1)),
    (b"build $: phony b\n", Err(1)),
    (b"build a: phony $b\n", Err(1)),
    (b"build a: phony b|c\n", Err(1)),
    (b"build a: phony |\n", Err(1)),
    (b"build a: phony b ||\n", Err(1)),
    (b"build a: phony | || b\n", Err(1)),
    (b"build a: phony || b | c\n", Err(1)),
    (b"build a | b: phony\n", Err(1)),
    (b"build a: phony b\tc\n", Err(1)),
    (b" build a: phony\n", Err(1)),
    (b"  k = v\n", Err(1)),
    (b"build a: phony\n  k = $v\n", Err(2)),
    (b"build a: phony\n  k = v\n  k = w\n", Err(3)),
    (b"build a a: phony\n", Err(1)),
    (b"build a: phony\nbuild b a: phony\nbogus\n", Err(2)),
    (b"default\n", Err(1)),
    (b"# x\nbuild a: phony\ndefault a\ndefault a b\n", Err(4)),
];

// Texts that are refused for what is at their end, or for bytes that are no text. A line that isn't UTF-8 binds no
// `command`.
const ENDS: [Case; 12] = [
    (b"build a: phony b$", Err(1)),
    (b"\nbuild a: phony $\n b$", Err(2)),
    (b"# c $", Err(1)),
    (b"# c $\n", Err(1)),
    (b"build a: phony \xff\n", Err(1)),
    (b"# \xff\n", Err(1)),
    (b"build a: phony $\n  b$\n \xc3\n", Err(3)),
    (b"rule r\n  command = \xff\n", Err(1)),
    (b"rule r\n  command = a $\n  \xff\n", Err(1)),
    (b"rule r\n  command = a\n  depfile = \xff\n", Err(3)),
    (b"build a: phony\n$\n", Err(2)),
    (b"default $a\nbogus\n", Err(1)),
];

fn check_case(rt: &impl Abort, alloc: Global, (text, want): &Case) -> Result<(), Fail> {
    match came_of(alloc, text)? {
        Ok(came) => assert_eq!(rt; Ok(came.as_str()), *want, "{text:?}"),
        Err(line) => assert_eq!(rt; Err(line), *want, "{text:?}"),
    }
    Ok(())
}

fn check_cases(rt: &impl Abort, alloc: Global, cases: &[Case]) -> Result<(), Fail> {
    for case in cases {
        check_case(rt, alloc, case)?;
    }
    Ok(())
}

#[test]
fn texts_that_are_read(rt: HostRuntime) -> Result<(), Fail> {
    check_cases(&rt, rt.alloc(), &READ)
}

#[test]
fn texts_that_are_refused(rt: HostRuntime) -> Result<(), Fail> {
    check_cases(&rt, rt.alloc(), &REFUSED)
}

#[test]
fn ends_that_are_refused(rt: HostRuntime) -> Result<(), Fail> {
    check_cases(&rt, rt.alloc(), &ENDS)
}

const SHORT: &[u8] = b"rule r\n command = $ x$y$$\nbuild a$ b:r c || d\n k = :\ndefault a$ b";

/// A text, and what `write` makes of the file that comes back; nothing where its file isn't well formed.
type Formed = (&'static [u8], Option<&'static str>);

// A file that is read is well formed but for empty values and control characters in values.
const FORMED: [Formed; 5] = [
    (b"", Some("")),
    (
        SHORT,
        Some("rule r\n  command = $ x${y}$$\nbuild a$ b: r c || d\n  k = :\ndefault a$ b\n"),
    ),
    (b"rule r\n  command =\n", None),
    (b"build a: phony\n  k =\n", None),
    (b"build a: phony\n  k = \t\n", None),
];

fn check_formed(rt: &impl Abort, alloc: Global, cases: &[Formed]) -> Result<(), Fail> {
    for (text, want) in cases {
        let came = come_back(alloc, text)?;
        assert_eq!(rt; came.as_ref().map(|text| text.as_str()), *want, "{text:?}");
    }
    Ok(())
}

#[test]
fn well_formed_files_come_back(rt: HostRuntime) -> Result<(), Fail> {
    check_formed(&rt, rt.alloc(), &FORMED)
}

const ODD: &str = "a b:$";

fn paths(alloc: Global, count: u32) -> Result<Seq<Text>, OutOfMemory> {
    let mut paths = Vec::new(alloc);
    for number in 0..count {
        paths.push(Text::new(format!(in alloc; "{number}{ODD}")?))?;
    }
    Ok(Seq::new(paths))
}

fn one_path(alloc: Global, number: u32) -> Result<Seq<Text>, OutOfMemory> {
    let mut paths = Vec::new(alloc);
    paths.push(Text::new(format!(in alloc; "out/{number}")?))?;
    Ok(Seq::new(paths))
}

fn one_variable(alloc: Global) -> Result<Seq<(Text, Text)>, OutOfMemory> {
    let mut vars = Vec::new(alloc);
    vars.push((Text::from_str(alloc, "key")?, Text::from_str(alloc, ODD)?))?;
    Ok(Seq::new(vars))
}

fn statement(alloc: Global, number: u32, ins: u32) -> Result<Statement, OutOfMemory> {
    Ok(Statement {
        outs: one_path(alloc, number)?,
        rule: Text::from_str(alloc, "phony")?,
        ins: paths(alloc, ins)?,
        implicit: Seq::new(Vec::new(alloc)),
        order_only: paths(alloc, 1)?,
        vars: one_variable(alloc)?,
    })
}

// A file with 25,000 paths and variables, of which 7,000 are in one statement. Several threads print it.
fn long_file(alloc: Global) -> Result<NinjaFile, OutOfMemory> {
    let mut statements = Vec::new(alloc);
    for number in 0..3000 {
        let ins = if number == 1000 { 7000 } else { 3 };
        statements.push(statement(alloc, number, ins)?)?;
    }
    Ok(NinjaFile {
        rules: Seq::new(Vec::new(alloc)),
        statements: Seq::new(statements),
        defaults: paths(alloc, 2)?,
    })
}

/// Whether so many workers print a file as `write` does.
fn printed_by<R: Threads + Sync>(
    rt: &R,
    alloc: Global,
    file: &NinjaFile,
    workers: u32,
) -> Result<bool, Fail>
    requires low { 1 ≤ workers }
    requires high { workers ≤ 64 }
{
    let text = write(alloc, file)?;
    Ok(write_in(rt, alloc, file, workers)?.as_slice() == text.as_slice())
}

/// Whether the two texts of `written_alike` are one.
fn printed_alike<R: Threads + Sync>(rt: &R, alloc: Global, file: &NinjaFile) -> Result<bool, Fail> {
    let (alone, together) = written_alike(rt, alloc, file, 5);
    Ok(alone?.as_slice() == together?.as_slice())
}

#[test]
fn parallel_printing(rt: HostRuntime) -> Result<(), Fail> {
    let alloc = rt.alloc();
    let file = long_file(alloc)?;
    for workers in [1, 2, 64] {
        assert!(rt;
            printed_by(&rt, alloc, &file, workers)?,
            "{workers} workers"
        );
    }
    assert!(rt; printed_alike(&rt, alloc, &file)?);
    Ok(())
}

fn short_prints<R: Threads + Sync>(rt: &R, alloc: Global, text: &[u8]) -> Result<bool, Fail> {
    if text.len() > 1000 {
        return Ok(false);
    }
    printed_by(rt, alloc, &read(alloc, text)?, 64)
}

#[test]
fn parallel_printing_of_a_short_file(rt: HostRuntime) -> Result<(), Fail> {
    assert!(rt; short_prints(&rt, rt.alloc(), SHORT)?);
    Ok(())
}

// What the errors of writing and of reading say of themselves.
fn error_texts(alloc: Global) -> Result<String, OutOfMemory> {
    let (large, unwritten) = (WriteError::TooLarge, WriteError::OutOfMemory);
    let (line, unread) = (NinjaError::BadLine(7), NinjaError::OutOfMemory);
    Ok(format!(in alloc; "{large}; {unwritten}; {line}; {unread}")?)
}

#[test]
fn texts_of_errors(rt: HostRuntime) -> Result<(), Fail> {
    let want = "the text is too large; out of memory; line 7 is refused; out of memory";
    assert_eq!(rt; error_texts(rt.alloc())?.as_str(), want);
    Ok(())
}

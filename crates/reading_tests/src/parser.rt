ghost use Rattle.std.specs.Prelude.{◌≤◌, ◌^◌, length};

use bp_faults::{Fault, OutOfMemory, Place, Text, fault_line};
use bp_lexer::tokens;
use bp_parser::{Def, Expr, FileTree, ParseError, parse};
use std::alloc::Global;
use std::test::Fail;

fn line(alloc: Global, fault: &Fault) -> Result<String, OutOfMemory> {
    let mut files = Vec::new(alloc);
    files.push(Text::from_str(alloc, "list")?)?;
    files.push(Text::from_str(alloc, "Android.bp")?)?;
    fault_line(alloc, fault, files.as_slice())
}

// A place, and a text between two others.
fn placed(
    alloc: Global,
    at: Place,
    open: &str,
    text: &str,
    close: &str,
) -> Result<String, OutOfMemory> {
    let (line, col) = (at.line, at.col);
    Ok(format!(in alloc; "{line}:{col} {open}{text}{close}")?)
}

// A place, and a number of parts between two brackets.
fn counted(
    alloc: Global,
    at: Place,
    open: &str,
    count: usize,
    close: &str,
) -> Result<String, OutOfMemory> {
    let number = format!(in alloc; "{count}")?;
    placed(alloc, at, open, number.as_str(), close)
}

fn integer(alloc: Global, at: Place, number: i64) -> Result<String, OutOfMemory> {
    let number = format!(in alloc; "{number}")?;
    placed(alloc, at, "", number.as_str(), "")
}

// The number of terms behind the first, and the place of each plus.
fn sum(alloc: Global, terms: &[(Place, Expr)]) -> Result<String, OutOfMemory> {
    let count = terms.len();
    let mut shown = format!(in alloc; "sum of 1 + {count}")?;
    for term in terms {
        shown.push_str(" ")?;
        let (line, col) = (term.0.line, term.0.col);
        shown.push_str(format!(in alloc; "{line}:{col}")?.as_str())?;
    }
    Ok(shown)
}

// An expression by its place, and its text or the number of its parts.
fn value(alloc: Global, value: &Expr) -> Result<String, OutOfMemory> {
    match value {
        Expr::Bool(at, truth) => {
            placed(alloc, *at, "", if *truth { "true" } else { "false" }, "")
        }
        Expr::Int(at, number) => integer(alloc, *at, *number),
        Expr::Str(at, text) => placed(alloc, *at, "'", text.as_str(), "'"),
        Expr::Name(at, text) => placed(alloc, *at, "", text.as_str(), ""),
        Expr::List(at, items) => counted(alloc, *at, "[", items.len(), "]"),
        Expr::Map(map) => counted(alloc, map.at, "{", map.entries.len(), "}"),
        Expr::Sum(_, terms) => sum(alloc, terms.as_slice()),
    }
}

fn named(
    alloc: Global,
    at: Place,
    name: &Text,
    sign: &str,
    value: &str,
) -> Result<String, OutOfMemory> {
    let (line, col, name) = (at.line, at.col, name.as_str());
    Ok(format!(in alloc; "; {line}:{col} {name} {sign} {value}")?)
}

fn definition(alloc: Global, def: &Def) -> Result<String, OutOfMemory> {
    match def {
        Def::Assign { name, at, value: v } => {
            let v = value(alloc, v)?;
            named(alloc, *at, name, "=", v.as_str())
        }
        Def::Extend { name, at, value: v } => {
            let v = value(alloc, v)?;
            named(alloc, *at, name, "+=", v.as_str())
        }
        Def::Module { kind, at, body } => {
            let mut shown = String::new(alloc);
            for entry in body.entries.iter() {
                let v = value(alloc, &entry.value)?;
                let one = named(alloc, entry.at, &entry.name, ":", v.as_str())?;
                shown.push_str(one.as_str())?;
            }
            named(alloc, *at, kind, "has", shown.as_str())
        }
    }
}

// The file's number and its definitions.
fn told(alloc: Global, tree: &FileTree) -> Result<String, OutOfMemory> {
    let file = tree.file;
    let mut shown = format!(in alloc; "{file}")?;
    for def in tree.defs.iter() {
        let one = definition(alloc, def)?;
        shown.push_str(one.as_str())?;
    }
    Ok(shown)
}

fn parsed(alloc: Global, text: &str) -> Result<FileTree, ParseError>
    requires { length text.now ≤ 2 ^ 20 }
{
    let list = tokens(alloc, text, 1)?;
    parse(alloc, text, list.as_slice())
}

// The file as it is told, or the line of the first fault. A text over 1 MiB isn't read.
fn shown(alloc: Global, text: &str) -> Result<String, OutOfMemory> {
    if text.len() > 1 << 20 {
        return Ok(String::from_str(alloc, "over 1 MiB")?);
    }
    match parsed(alloc, text) {
        Ok(tree) => told(alloc, &tree),
        Err(ParseError::Bad(fault)) => line(alloc, &fault),
        Err(ParseError::OutOfMemory) => Err(OutOfMemory),
    }
}

// `count` times the text that opens, and as many times the text that closes.
fn nested(
    alloc: Global,
    head: &str,
    open: &str,
    count: usize,
    middle: &str,
    close: &str,
) -> Result<String, OutOfMemory> {
    let mut text = String::from_str(alloc, head)?;
    for _ in 0..count {
        text.push_str(open)?;
    }
    text.push_str(middle)?;
    for _ in 0..count {
        text.push_str(close)?;
    }
    Ok(text)
}

const TREES: &[(&str, &str)] = &[
    ("", "0"),
    ("// x\n/* y */", "0"),
    ("// x\nx = 1", "1; 2:1 x = 2:5 1"),
    (
        "x += \"a\\tb\" /* c */ y = `d`",
        "1; 1:1 x += 1:6 'a\tb'; 1:21 y = 1:25 'd'",
    ),
    (
        "a = true b = false c = d",
        "1; 1:1 a = 1:5 true; 1:10 b = 1:14 false; 1:20 c = 1:24 d",
    ),
    (
        "select = -9223372036854775808",
        "1; 1:1 select = 1:10 -9223372036854775808",
    ),
    (
        "cc_binary { name: \"x\", true: false, }",
        "1; 1:1 cc_binary has ; 1:13 name : 1:19 'x'; 1:24 true : 1:30 false",
    ),
    (
        "x = [1,] y = [[], {a: 1,}, z]",
        "1; 1:1 x = 1:5 [1]; 1:10 y = 1:14 [3]",
    ),
    (
        "x = {a: 1, b: {a: 2}} y = {a: 3,}",
        "1; 1:1 x = 1:5 {2}; 1:23 y = 1:27 {1}",
    ),
    (
        "x = [a + b] + {} + `c` + 4 y {}",
        "1; 1:1 x = sum of 1 + 3 1:13 1:18 1:24; 1:28 y has ",
    ),
];

#[test]
fn trees_are_told(rt: HostRuntime) -> Result<(), Fail> {
    for (text, want) in TREES {
        assert_eq!(rt; shown(rt.alloc(), text)?.as_str(), *want, "{text}");
    }
    Ok(())
}

// Texts, and the lines of their faults without the file and the end of the line.
const BAD: &[(&str, &str)] = &[
    (
        "cc_binary { name \"x\" }",
        "1:18: error 7: unexpected token: \"x\"",
    ),
    (
        "cc_binary {",
        "1:12: error 7: unexpected token: end of file",
    ),
    ("x = { a: 1, a: 2 }", "1:13: error 9: duplicate property: a"),
    ("x = {a: 1, a }", "1:12: error 9: duplicate property: a"),
    ("x = [,]", "1:6: error 7: unexpected token: ,"),
    ("x = [1,,]", "1:8: error 7: unexpected token: ,"),
    ("x = {,}", "1:6: error 7: unexpected token: ,"),
    ("x = {a: 1,,}", "1:11: error 7: unexpected token: ,"),
    ("x = {a: 1 b: 2}", "1:11: error 7: unexpected token: b"),
    ("x = 1,", "1:6: error 7: unexpected token: ,"),
    (
        "x = 1 + // é\n",
        "2:1: error 7: unexpected token: end of file",
    ),
    ("x = + 1", "1:5: error 7: unexpected token: +"),
    ("x = [1 + ]", "1:10: error 7: unexpected token: ]"),
    ("x = [1}", "1:7: error 7: unexpected token: }"),
    ("true = 1", "1:1: error 7: unexpected token: true"),
    ("x = y false { }", "1:7: error 7: unexpected token: false"),
    ("x = select(", "1:11: error 7: unexpected token: ("),
    ("x : 1", "1:3: error 7: unexpected token: :"),
    ("x =", "1:4: error 7: unexpected token: end of file"),
    ("x = {`a`: 1}", "1:6: error 7: unexpected token: `a`"),
];

#[test]
fn bad_texts(rt: HostRuntime) -> Result<(), Fail> {
    for (text, want) in BAD {
        let want = format!(in rt.alloc(); "Android.bp:{want}\n")?;
        assert_eq!(rt; shown(rt.alloc(), text)?.as_str(), want.as_str(), "{text}");
    }
    Ok(())
}

// A text with so many brackets: what stands before them, the opening one, their number, what they hold, the closing
// one, and what stands behind them.
type Nest = (
    &'static str,
    &'static str,
    usize,
    &'static str,
    &'static str,
    &'static str,
);

const NESTS: &[(Nest, &str)] = &[
    (("x = ", "[", 64, "", "]", ""), "1; 1:1 x = 1:5 [1]"),
    (
        ("x = ", "[", 65, "", "]", ""),
        "Android.bp:1:69: error 8: nested too deeply\n",
    ),
    (("x = ", "{a:", 63, "{}", "}", ""), "1; 1:1 x = 1:5 {1}"),
    (
        ("x = ", "{a:", 64, "{}", "}", ""),
        "Android.bp:1:197: error 8: nested too deeply\n",
    ),
    (
        ("x = ", "{a:", 63, "{{", "}", ""),
        "Android.bp:1:195: error 7: unexpected token: {\n",
    ),
    (("x = ", "[{a:", 32, "1", "}]", ""), "1; 1:1 x = 1:5 [1]"),
    (
        ("x = ", "[{a:", 32, "[", "}]", ""),
        "Android.bp:1:133: error 8: nested too deeply\n",
    ),
    (
        ("m {a:", "[", 63, "", "]", "}"),
        "1; 1:1 m has ; 1:4 a : 1:6 [1]",
    ),
    (
        ("m {a:", "[", 64, "", "]", "}"),
        "Android.bp:1:69: error 8: nested too deeply\n",
    ),
];

// How the text of these brackets is shown.
fn shown_nest(alloc: Global, nest: Nest) -> Result<String, OutOfMemory> {
    let (head, open, count, middle, close, tail) = nest;
    let mut text = nested(alloc, head, open, count, middle, close)?;
    text.push_str(tail)?;
    shown(alloc, text.as_str())
}

#[test]
fn brackets_are_counted(rt: HostRuntime) -> Result<(), Fail> {
    for (nest, want) in NESTS {
        assert_eq!(rt; shown_nest(rt.alloc(), *nest)?.as_str(), *want);
    }
    Ok(())
}

#[test]
fn a_long_list_is_read(rt: HostRuntime) -> Result<(), Fail> {
    let nest = ("x = [", "1,", 65_536, "]", "", "");
    let came = shown_nest(rt.alloc(), nest)?;
    assert_eq!(rt; came.as_str(), "1; 1:1 x = 1:5 [65536]");
    Ok(())
}

#[test]
fn a_long_sum_is_read(rt: HostRuntime) -> Result<(), Fail> {
    let sum = nested(rt.alloc(), "x = 1", " + 1", 65_535, "", "")?;
    let shown = shown(rt.alloc(), sum.as_str())?;
    assert!(rt;
        shown
            .as_str()
            .starts_with("1; 1:1 x = sum of 1 + 65535 1:7 1:11 ")
    );
    Ok(())
}

// A map of so many entries.
fn long_map(alloc: Global, count: u32) -> Result<String, OutOfMemory> {
    let mut map = String::from_str(alloc, "x = {")?;
    for i in 0..count {
        map.push_str(format!(in alloc; "a{i}: 1,")?.as_str())?;
    }
    map.push_str("}")?;
    Ok(map)
}

#[test]
fn a_long_map_is_read(rt: HostRuntime) -> Result<(), Fail> {
    let map = long_map(rt.alloc(), 10_000)?;
    let came = shown(rt.alloc(), map.as_str())?;
    assert_eq!(rt; came.as_str(), "1; 1:1 x = 1:5 {10000}");
    Ok(())
}

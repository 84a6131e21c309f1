ghost use Rattle.std.specs.Prelude.{◌≤◌, ◌^◌, length};
ghost use Rattle.bp_lexer.specs.declared.token.TokenKind.TheVariants.{Ident};
ghost use Rattle.bp_lexer.specs.Forms.{IsForm};

use bp_faults::{OutOfMemory, Text, fault_line};
use bp_format::{EditError, FormatError, format, is_identifier, set_list};
use std::alloc::Global;
use std::test::Fail;

// The layout, or the line of the fault. A text over 1 MiB isn't read.
fn laid(alloc: Global, text: &str) -> Result<String, OutOfMemory> {
    if text.len() > 1 << 20 {
        return Ok(String::from_str(alloc, "over 1 MiB")?);
    }
    match format(alloc, text, 1) {
        Ok(out) => Ok(out),
        Err(FormatError::Bad(fault)) => fault_line(alloc, &fault, &[]),
        Err(FormatError::OutOfMemory) => Err(OutOfMemory),
    }
}

fn texts(alloc: Global, words: &[&str]) -> Result<Vec<Text>, OutOfMemory> {
    let mut texts = Vec::new(alloc);
    for word in words {
        texts.push(Text::from_str(alloc, word)?)?;
    }
    Ok(texts)
}

// The text with a property of a module set to the items, or the line of the fault. It is empty
// where the property is no identifier. A text over 1 MiB isn't read.
fn edited_by(
    alloc: Global,
    text: &str,
    (name, property): (&Text, &Text),
    items: &[Text],
) -> Result<String, OutOfMemory> {
    if text.len() > 1 << 20 {
        return Ok(String::from_str(alloc, "over 1 MiB")?);
    }
    if !is_identifier(property) {
        return Ok(String::new(alloc));
    }
    match set_list(alloc, text, 1, name, property, items) {
        Ok(out) => Ok(out),
        Err(EditError::Bad(fault)) => fault_line(alloc, &fault, &[]),
        Err(EditError::OutOfMemory) => Err(OutOfMemory),
    }
}

// The text that is edited by words.
fn edited(
    alloc: Global,
    text: &str,
    name: &str,
    property: &str,
    items: &[&str],
) -> Result<String, OutOfMemory> {
    let name = Text::from_str(alloc, name)?;
    let property = Text::from_str(alloc, property)?;
    let items = texts(alloc, items)?;
    edited_by(alloc, text, (&name, &property), items.as_slice())
}

// The first text that isn't laid out as it should be, and how it is.
fn differing(
    alloc: Global,
    cases: &[(&'static str, &str)],
) -> Result<Option<(&'static str, String)>, OutOfMemory> {
    for (text, want) in cases {
        let came = laid(alloc, text)?;
        if came.as_str() != *want {
            return Ok(Some((*text, came)));
        }
    }
    Ok(None)
}

const GAPS: &[(&str, &str)] = &[
    // 1: a comment stays behind the token on whose line it stands.
    ("a=[ // c\n1,2]", "a = [ // c\n    1,\n    2\n]\n"),
    ("m{}/*c*/n{}", "m {} /*c*/ n {}\n"),
    // 2: an empty line stands behind a definition.
    ("x=1+ -2 m{}//c", "x = 1 + -2\n\nm {} //c\n"),
    ("m{}\n/*c*/n{}", "m {}\n\n/*c*/ n {}\n"),
    // 3: a line ends behind a comment that ended one.
    ("m{\n/*c*/\na:1}", "m {\n    /*c*/\n    a: 1\n}\n"),
    ("m{\n/*c*/a:1}", "m {\n    /*c*/ a: 1\n}\n"),
    ("//c\na=1", "//c\na = 1\n"),
    // 4: a comment on a line of its own stays there.
    ("m{a:1\n//c\n}", "m {\n    a: 1\n    //c\n}\n"),
    // 5: nothing stands in an empty list or map, or before a mark.
    ("m{a : { } , b : [ ] }", "m {\n    a: {},\n    b: []\n}\n"),
    // 6: a list of one token stays on its line.
    ("a=[ 1 ]", "a = [1]\n"),
    ("a=[[1]]", "a = [\n    [1]\n]\n"),
    // 7: an item, and an entry, stands on a line of its own.
    (
        "m{a:[1,2]}",
        "m {\n    a: [\n        1,\n        2\n    ]\n}\n",
    ),
    ("a=[1,]", "a = [\n    1,\n]\n"),
    // 8: a space stands between all others.
    ("a+=b+c", "a += b + c\n"),
];

#[test]
fn each_rule_gives_its_gap(rt: HostRuntime) -> Result<(), Fail> {
    assert_eq!(rt; differing(rt.alloc(), GAPS)?, None);
    Ok(())
}

// The example *layout*; then comments in every place, CR LF, deep lists, and faults.
const LAYOUTS: &[(&str, &str)] = &[
    (
        "cc_binary{name:\"a\",srcs:[\"x.c\",\"y.c\"],cflags:[\"-g\"],// t\n}\n",
        "cc_binary {\n    name: \"a\",\n    srcs: [\n        \"x.c\",\n        \"y.c\"\n    ],\n    \
            cflags: [\"-g\"], // t\n}\n",
    ),
    ("", ""),
    (" \n", ""),
    (
        "/*1*/m/*2*/{/*3*/a/*4*/:/*5*/[/*6*/1/*7*/,/*8*/2/*9*/]/*10*/,/*11*/}/*12*/",
        "/*1*/ m /*2*/ { /*3*/ a /*4*/ : /*5*/ [ /*6*/ 1 /*7*/ , /*8*/ 2 /*9*/ ] /*10*/ , /*11*/ } /*12*/\n",
    ),
    (
        "//1\nm//2\n{//3\na//4\n://5\n[//6\n1//7\n,//8\n2//9\n]//10\n,//11\n}//12",
        "//1\nm //2\n{ //3\n    a //4\n    : //5\n    [ //6\n        1 //7\n        , //8\n        2 //9\n    \
            ] //10\n    , //11\n} //12\n",
    ),
    (
        "/*1*/\nm\n/*2*/\n{\n/*3*/\na\n/*4*/\n:\n/*5*/\n[\n/*6*/\n1\n/*7*/\n]\n/*8*/\n}\n/*9*/",
        "/*1*/\nm\n/*2*/\n{\n    /*3*/\n    a\n    /*4*/\n    :\n    /*5*/\n    [\n        /*6*/\n        1\n        \
            /*7*/\n    ]\n    /*8*/\n}\n\n/*9*/\n",
    ),
    (
        "/*1*/a/*2*/=/*3*/1/*4*/\n//5",
        "/*1*/ a /*2*/ = /*3*/ 1 /*4*/\n//5\n",
    ),
    ("a=1\r\nb=2\r\n", "a = 1\n\nb = 2\n"),
    (
        "m{\r\n\ta:1,\r\n//c\r\n}\r\n",
        "m {\n    a: 1,\n    //c\r\n}\n",
    ),
    (
        "m{a:{b:[[1,2]]}}",
        "m {\n    a: {\n        b: [\n            [\n                1,\n                2\n            ]\n        \
            ]\n    }\n}\n",
    ),
    ("?", ":1:1: error 2: unexpected character: ?\n"),
    ("m{", ":1:3: error 7: unexpected token: end of file\n"),
];

#[test]
fn texts_are_laid_out(rt: HostRuntime) -> Result<(), Fail> {
    assert_eq!(rt; differing(rt.alloc(), LAYOUTS)?, None);
    Ok(())
}

// The first text, and the second so many times behind it.
fn repeated(alloc: Global, first: &str, text: &str, times: usize) -> Result<String, OutOfMemory> {
    let mut out = String::from_str(alloc, first)?;
    for _ in 0..times {
        out.push_str(text)?;
    }
    Ok(out)
}

// A file of 1,023 definitions of 1,024 bytes each, with the empty line behind them, and of a last
// one, which begins so, and has 1,018 bytes more.
fn large_file(alloc: Global, last: &str) -> Result<String, OutOfMemory> {
    let mut line = repeated(alloc, "a = \"", "12345678", 127)?;
    line.push_str("\"\n\n")?;
    let mut text = repeated(alloc, "", line.as_str(), 1_023)?;
    let end = repeated(alloc, last, "12345678", 127)?;
    text.push_str(end.as_str())?;
    text.push_str("\"\n")?;
    Ok(text)
}

// Whether a text is its own layout.
fn keeps_layout(alloc: Global, text: &str) -> Result<bool, OutOfMemory> {
    Ok(laid(alloc, text)?.as_str() == text)
}

#[test]
fn a_layout_of_a_mebibyte_is_its_own(rt: HostRuntime) -> Result<(), Fail> {
    let longest = large_file(rt.alloc(), "ab = \"")?;
    assert_eq!(rt; longest.len(), 1 << 20);
    assert!(rt; keeps_layout(rt.alloc(), longest.as_str())?);
    Ok(())
}

#[test]
fn a_layout_can_be_too_long(rt: HostRuntime) -> Result<(), Fail> {
    // Its layout has a byte more than 1 MiB.
    let denser = large_file(rt.alloc(), "abc=\"")?;
    assert_eq!(rt;
        laid(rt.alloc(), denser.as_str())?.as_str(),
        ":1:1: error 40: text is too long\n"
    );
    Ok(())
}

// The text of the example *layout*. Edited, it is the example *list_edit*.
const ROW: &str = "cc_binary{name:\"a\",srcs:[\"x.c\",\"y.c\"],cflags:[\"-g\"],// t\n}\n";

// Texts, each with the name of a module, a property that is set, and what is wanted.
const EDITS: &[(&str, &str, &str, &str)] = &[
    (
        ROW,
        "a",
        "srcs",
        "cc_binary{name:\"a\",srcs:[\"z.c\"],cflags:[\"-g\"],// t\n}\n",
    ),
    (
        ROW,
        "a",
        "ldflags",
        "cc_binary{name:\"a\", ldflags: [\"z.c\"],srcs:[\"x.c\",\"y.c\"],cflags:[\"-g\"],// t\n}\n",
    ),
    (ROW, "b", "srcs", ":1:1: error 41: no such module: b\n"),
    (ROW, "a", "name", ":1:16: error 42: not a list: name\n"),
    // The property comes first, last, and alone.
    (
        "m{srcs:[1],name:\"a\"}",
        "a",
        "srcs",
        "m{srcs:[\"z.c\"],name:\"a\"}",
    ),
    (
        "m{name:`a`,srcs:[]}",
        "a",
        "srcs",
        "m{name:`a`,srcs:[\"z.c\"]}",
    ),
    (
        "m{srcs:[]}",
        "a",
        "srcs",
        ":1:1: error 41: no such module: a\n",
    ),
    // It isn't there.
    (
        "m{name:\"a\"}",
        "a",
        "srcs",
        "m{name:\"a\", srcs: [\"z.c\"]}",
    ),
    (
        "m{name:\"a\",}",
        "a",
        "srcs",
        "m{name:\"a\", srcs: [\"z.c\"],}",
    ),
    (
        "m{x:{srcs:[1]},name:\"a\"//c\n,}",
        "a",
        "srcs",
        "m{x:{srcs:[1]},name:\"a\", srcs: [\"z.c\"]//c\n,}",
    ),
    // The first module of the name is meant.
    (
        "m{name:\"b\"}n{name:\"a\"}o{name:\"a\",srcs:[]}",
        "a",
        "srcs",
        "m{name:\"b\"}n{name:\"a\", srcs: [\"z.c\"]}o{name:\"a\",srcs:[]}",
    ),
    (
        "m{name:\"a\",srcs:[1]}n{name:\"a\",srcs:[2]}",
        "a",
        "srcs",
        "m{name:\"a\",srcs:[\"z.c\"]}n{name:\"a\",srcs:[2]}",
    ),
    // All in the old list goes with it.
    (
        "m{name:\"a\",srcs:[ // ]\n[1],{x:[]}]/**/}",
        "a",
        "srcs",
        "m{name:\"a\",srcs:[\"z.c\"]/**/}",
    ),
    (
        "m{\r\nname:\"a\",\r\nsrcs:[\r\n1\r\n],\r\n}\r\n",
        "a",
        "srcs",
        "m{\r\nname:\"a\",\r\nsrcs:[\"z.c\"],\r\n}\r\n",
    ),
    // The faults.
    (
        "m{name:\"b\",srcs:1}",
        "a",
        "srcs",
        ":1:1: error 41: no such module: a\n",
    ),
    (
        "m{name:\"a\",srcs:[]+[]}",
        "a",
        "srcs",
        ":1:17: error 42: not a list: srcs\n",
    ),
    (
        "name=\"a\"m{name:name}",
        "a",
        "srcs",
        ":1:1: error 41: no such module: a\n",
    ),
    (
        "m{",
        "a",
        "srcs",
        ":1:3: error 7: unexpected token: end of file\n",
    ),
    (ROW, "a", "1", ""),
];

#[test]
fn lists_are_set(rt: HostRuntime) -> Result<(), Fail> {
    for (text, name, property, want) in EDITS {
        let came = edited(rt.alloc(), text, name, property, &["z.c"])?;
        assert_eq!(rt; came.as_str(), *want, "{text} {property}");
    }
    Ok(())
}

// Items, and a text whose list is set to them.
const QUOTED: &[(&[&str], &str)] = &[
    (&[], "m{name:\"a\",srcs:[]}"),
    (&["", "-l"], "m{name:\"a\",srcs:[\"\", \"-l\"]}"),
    (
        &["\u{7}\u{8}\u{c}\n\r\t\u{b}\\\"é\u{0}"],
        "m{name:\"a\",srcs:[\"\\a\\b\\f\\n\\r\\t\\v\\\\\\\"é\u{0}\"]}",
    ),
];

#[test]
fn items_are_quoted(rt: HostRuntime) -> Result<(), Fail> {
    for (items, want) in QUOTED {
        let came = edited(rt.alloc(), "m{name:\"a\",srcs:[1]}", "a", "srcs", items)?;
        assert_eq!(rt; came.as_str(), *want);
    }
    Ok(())
}

// Whether a text of 1 MiB stays as it is when a list in it is set to no items.
fn keeps_text(alloc: Global, text: &str) -> Result<bool, OutOfMemory> {
    Ok(edited(alloc, text, "a", "s", &[])?.as_str() == text)
}

#[test]
fn an_edited_text_can_be_too_long(rt: HostRuntime) -> Result<(), Fail> {
    let text = repeated(rt.alloc(), "m{name:\"a\",s:[]}", "                ", 65_535)?;
    assert!(rt; keeps_text(rt.alloc(), text.as_str())?);
    let longer = edited(rt.alloc(), text.as_str(), "a", "s", &[""])?;
    assert_eq!(rt; longer.as_str(), ":1:1: error 40: text is too long\n");
    Ok(())
}

ghost use Rattle.std.specs.Prelude.{◌≤◌, ◌^◌, length};

use bp_faults::{OutOfMemory, Text, fault_line};
use bp_lexer::laws::lists_have_tokens;
use bp_lexer::{LexError, Token, place_of_end, tokens, value_of};
use std::alloc::Global;
use std::test::Fail;

// Tokens, each as its kind, its span and its place.
fn told(alloc: Global, list: &[Token]) -> Result<String, OutOfMemory> {
    let mut shown = String::new(alloc);
    for token in list {
        let kind = token.kind;
        let (start, end) = (token.start, token.end);
        let (line, col) = (token.place.line, token.place.col);
        let one = format!(in alloc; "{kind:?} {start}..{end} {line}:{col}; ")?;
        shown.push_str(one.as_str())?;
    }
    Ok(shown)
}

// The tokens of a text as they are told, or the line of the first fault. A text over 1 MiB isn't read.
fn shown(alloc: Global, text: &str) -> Result<String, OutOfMemory> {
    if text.len() > 1 << 20 {
        return Ok(String::from_str(alloc, "over 1 MiB")?);
    }
    match tokens(alloc, text, 1) {
        Ok(list) => told(alloc, list.as_slice()),
        Err(LexError::Bad(fault)) => fault_line(alloc, &fault, &[]),
        Err(LexError::OutOfMemory) => Err(OutOfMemory),
    }
}

// The first text that isn't shown as it should be, and how it is.
fn differing(
    alloc: Global,
    cases: &[(&'static str, &str)],
) -> Result<Option<(&'static str, String)>, OutOfMemory> {
    for (text, want) in cases {
        let came = shown(alloc, text)?;
        if came.as_str() != *want {
            return Ok(Some((*text, came)));
        }
    }
    Ok(None)
}

// The string that the first token stands for.
fn first_value(alloc: Global, text: &str) -> Result<Option<Text>, LexError>
    requires { length text.now ≤ 2 ^ 20 }
{
    lists_have_tokens();
    let list = tokens(alloc, text, 1)?;
    match list.first() {
        Some(token) => Ok(Some(value_of(alloc, text, token)?)),
        None => Ok(None),
    }
}

const CUT: &[(&str, &str)] = &[
    ("", ""),
    (" \t\r\n", ""),
    (
        "cc {\r\n\tn: \"x\",\r\n}",
        "Ident 0..2 1:1; Punct(OpenBrace) 3..4 1:4; Ident 7..8 2:2; Punct(Colon) 8..9 2:3; Quoted 10..13 2:5; \
            Punct(Comma) 13..14 2:8; Punct(CloseBrace) 16..17 3:1; ",
    ),
    (
        "+= + =[(",
        "Punct(PlusEqual) 0..2 1:1; Punct(Plus) 3..4 1:4; Punct(Equal) 5..6 1:6; Punct(OpenBracket) 6..7 1:7; \
            Punct(OpenParen) 7..8 1:8; ",
    ),
    ("a1 //", "Ident 0..2 1:1; LineComment 3..5 1:4; "),
    (
        "// é\r\n]",
        "LineComment 0..6 1:1; Punct(CloseBracket) 7..8 2:1; ",
    ),
    (
        "/**/)",
        "BlockComment 0..4 1:1; Punct(CloseParen) 4..5 1:5; ",
    ),
    (
        "/* *\n / **/ a",
        "BlockComment 0..11 1:1; Ident 12..13 2:8; ",
    ),
    ("`a\n\\`é", ":2:3: error 2: unexpected character: é\n"),
    ("`a\n\\`1a", "Raw 0..5 1:1; Int 5..6 2:3; Ident 6..7 2:4; "),
    (
        "-0 007 9223372036854775807",
        "Int 0..2 1:1; Int 3..6 1:4; Int 7..26 1:8; ",
    ),
    ("-9223372036854775808", "Int 0..20 1:1; "),
    ("\"a\\\"b\"", "Quoted 0..6 1:1; "),
];

#[test]
fn texts_are_cut_as_the_language_says(rt: HostRuntime) -> Result<(), Fail> {
    assert_eq!(rt; differing(rt.alloc(), CUT)?, None);
    Ok(())
}

#[test]
fn a_text_ends_at_a_place(rt: HostRuntime) -> Result<(), Fail> {
    let end = place_of_end("a\n é", 2);
    assert_eq!(rt; (end.file, end.line, end.col), (2, 2, 3));
    Ok(())
}

const FAULTS: &[(&str, &str)] = &[
    ("\"é漢😀\" é", ":1:7: error 2: unexpected character: é\n"),
    ("-", ":1:1: error 2: unexpected character: -\n"),
    ("1 --1", ":1:3: error 2: unexpected character: -\n"),
    ("a\n /", ":2:2: error 2: unexpected character: /\n"),
    ("\u{1}", ":1:1: error 2: unexpected character: ?\n"),
    ("x \"", ":1:3: error 3: unterminated string\n"),
    ("\"a\n\"", ":1:1: error 3: unterminated string\n"),
    ("\"\\q", ":1:1: error 3: unterminated string\n"),
    ("\"\\q\\\"", ":1:1: error 3: unterminated string\n"),
    ("\"a\\\n\"", ":1:1: error 3: unterminated string\n"),
    ("a `b", ":1:3: error 3: unterminated string\n"),
    ("/*/", ":1:1: error 4: unterminated comment\n"),
    ("a /* x", ":1:3: error 4: unterminated comment\n"),
    ("x \"é\\q\\z\"", ":1:5: error 5: bad escape: q\n"),
    ("\"\\é\"", ":1:2: error 5: bad escape: é\n"),
    (
        "a 9223372036854775808",
        ":1:3: error 6: number out of range: 9223372036854775808\n",
    ),
    (
        "-9223372036854775809 \"",
        ":1:1: error 6: number out of range: -9223372036854775809\n",
    ),
    (
        "[1000000000000000000000000000000000000",
        ":1:2: error 6: number out of range: 1000000000000000000000000000000000000\n",
    ),
];

#[test]
fn the_first_fault_is_reported(rt: HostRuntime) -> Result<(), Fail> {
    assert_eq!(rt; differing(rt.alloc(), FAULTS)?, None);
    Ok(())
}

// How a text of so many blanks and a question mark is shown.
fn behind_blanks(alloc: Global, blanks: u32) -> Result<String, OutOfMemory> {
    let mut long = String::new(alloc);
    for _ in 0..blanks {
        long.push(' ')?;
    }
    long.push('?')?;
    shown(alloc, long.as_str())
}

#[test]
fn a_fault_behind_many_blanks_is_reported(rt: HostRuntime) -> Result<(), Fail> {
    assert_eq!(rt;
        behind_blanks(rt.alloc(), 70000)?.as_str(),
        ":1:70001: error 2: unexpected character: ?\n"
    );
    Ok(())
}

// What the first token stands for; nothing where there is none, or the text is too long.
fn first_string(alloc: Global, text: &str) -> Result<Option<Text>, LexError> {
    if text.len() > 1 << 20 {
        return Ok(None);
    }
    first_value(alloc, text)
}

const VALUES: &[(&str, &str)] = &[
    (
        "\"\\a\\b\\f\\n\\r\\t\\v\\\\\\\"\"",
        "\u{7}\u{8}\u{c}\n\r\t\u{b}\\\"",
    ),
    ("\"é\\n漢\"", "é\n漢"),
    ("\"\"", ""),
    ("`a\\n\"é`", "a\\n\"é"),
    ("// name", "// name"),
];

#[test]
fn strings_stand_for_their_characters(rt: HostRuntime) -> Result<(), Fail> {
    for (text, want) in VALUES {
        let want = Some(Text::from_str(rt.alloc(), want)?);
        assert_eq!(rt; first_string(rt.alloc(), text)?, want, "{text}");
    }
    Ok(())
}

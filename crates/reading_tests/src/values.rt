ghost use Rattle.std.specs.Prelude.{◌≤◌, ◌^◌, length};

use bp_faults::{OutOfMemory, Place, Text, fault_line};
use bp_lexer::tokens;
use bp_parser::parse;
use bp_values::{EvalError, RawModule, Scope, Value, evaluate, sum};
use std::alloc::Global;
use std::test::Fail;

// What a text means, by its tokens and its tree.
fn evaluated(
    alloc: Global,
    text: &str,
    inherited: &Scope,
) -> Result<(Vec<RawModule>, Scope), EvalError>
    requires { length text.now ≤ 2 ^ 20 }
{
    let list = tokens(alloc, text, 1)?;
    let tree = parse(alloc, text, list.as_slice())?;
    evaluate(alloc, &tree, inherited)
}

// The line of the first fault, or nothing where there is none. A text over 1 MiB isn't read.
fn fault_in(alloc: Global, text: &str, inherited: &Scope) -> Result<String, OutOfMemory> {
    if text.len() > 1 << 20 {
        return Ok(String::from_str(alloc, "over 1 MiB")?);
    }
    match evaluated(alloc, text, inherited) {
        Ok(_) => Ok(String::new(alloc)),
        Err(EvalError::Bad(fault)) => fault_line(alloc, &fault, &[]),
        Err(EvalError::OutOfMemory) => Err(OutOfMemory),
    }
}

// A variable whose value is that many maps, each in the one before.
fn maps(alloc: Global, count: usize) -> Result<String, OutOfMemory> {
    let mut text = String::from_str(alloc, "x = {")?;
    for _ in 1..count {
        text.push_str("a:{")?;
    }
    for _ in 0..count {
        text.push_str("}")?;
    }
    Ok(text)
}

// A variable that is doubled that many times, and once more its first value.
fn doubled(alloc: Global, value: &str, times: usize) -> Result<String, OutOfMemory> {
    let mut text = format!(in alloc; "v0 = {value}\n")?;
    for i in 0..times {
        let next = i + 1;
        let line = format!(in alloc; "v{next} = v{i} + v{i}\n")?;
        text.push_str(line.as_str())?;
    }
    let line = format!(in alloc; "w = v{times} + v0")?;
    text.push_str(line.as_str())?;
    Ok(text)
}

const FAULTS: &[(&str, &str)] = &[
    (
        "x = [\"a\"]\ny = x\nx += [\"b\"]",
        ":3:1: error 13: variable was already used: x\n",
    ),
    (
        "x = \"a\"\nx = \"b\"",
        ":2:1: error 11: variable is already set: x\n",
    ),
    ("x = [\"a\"]\nx += x", ""),
    (
        "b = 9223372036854775807 + 1",
        ":1:25: error 14: cannot add: integer + integer\n",
    ),
    ("b = -9223372036854775808", ""),
    ("x = [1]", ":1:6: error 17: wrong type: list item\n"),
    (
        "x = 1 + \"a\" + y",
        ":1:7: error 14: cannot add: integer + string\n",
    ),
    (
        "x = {a: 1, b: 2} + {b: \"s\", a: [\"t\"]}",
        ":1:18: error 14: cannot add: integer + list\n",
    ),
    (
        "x = {a: 1, b: 2} + {c: 3} + {b: \"s\", a: [\"t\"]}",
        ":1:27: error 14: cannot add: integer + list\n",
    ),
    (
        "x = {a: 1}\nx += {b: 2}\nx += {b: true, a: \"s\"}",
        ":3:1: error 14: cannot add: integer + string\n",
    ),
    (
        "x = {m: {a: 1, b: 2}} + {m: {c: 3}} + {m: {b: \"s\", a: [\"t\"]}}",
        ":1:37: error 14: cannot add: integer + list\n",
    ),
    ("x += [y]", ":1:1: error 10: unknown variable: x\n"),
    (
        "cc { a: y }\ny = 1",
        ":1:9: error 10: unknown variable: y\n",
    ),
];

/// Each two types that have no sum.
const WITHOUT_A_SUM: &[(&str, &str)] = &[
    (
        "x = true + true",
        ":1:10: error 14: cannot add: bool + bool\n",
    ),
    (
        "x = true + 1",
        ":1:10: error 14: cannot add: bool + integer\n",
    ),
    (
        "x = true + \"a\"",
        ":1:10: error 14: cannot add: bool + string\n",
    ),
    (
        "x = true + [\"a\"]",
        ":1:10: error 14: cannot add: bool + list\n",
    ),
    (
        "x = true + {a: 1}",
        ":1:10: error 14: cannot add: bool + map\n",
    ),
    (
        "x = 1 + true",
        ":1:7: error 14: cannot add: integer + bool\n",
    ),
    (
        "x = 1 + \"a\"",
        ":1:7: error 14: cannot add: integer + string\n",
    ),
    (
        "x = 1 + [\"a\"]",
        ":1:7: error 14: cannot add: integer + list\n",
    ),
    (
        "x = 1 + {a: 1}",
        ":1:7: error 14: cannot add: integer + map\n",
    ),
    (
        "x = \"a\" + true",
        ":1:9: error 14: cannot add: string + bool\n",
    ),
    (
        "x = \"a\" + 1",
        ":1:9: error 14: cannot add: string + integer\n",
    ),
    (
        "x = \"a\" + [\"a\"]",
        ":1:9: error 14: cannot add: string + list\n",
    ),
    (
        "x = \"a\" + {a: 1}",
        ":1:9: error 14: cannot add: string + map\n",
    ),
    (
        "x = [\"a\"] + true",
        ":1:11: error 14: cannot add: list + bool\n",
    ),
    (
        "x = [\"a\"] + 1",
        ":1:11: error 14: cannot add: list + integer\n",
    ),
    (
        "x = [\"a\"] + \"a\"",
        ":1:11: error 14: cannot add: list + string\n",
    ),
    (
        "x = [\"a\"] + {a: 1}",
        ":1:11: error 14: cannot add: list + map\n",
    ),
    (
        "x = {a: 1} + true",
        ":1:12: error 14: cannot add: map + bool\n",
    ),
    (
        "x = {a: 1} + 1",
        ":1:12: error 14: cannot add: map + integer\n",
    ),
    (
        "x = {a: 1} + \"a\"",
        ":1:12: error 14: cannot add: map + string\n",
    ),
    (
        "x = {a: 1} + [\"a\"]",
        ":1:12: error 14: cannot add: map + list\n",
    ),
];

// The first text whose first fault is another, and that fault.
fn differing(
    alloc: Global,
    inherited: &Scope,
    cases: &[(&'static str, &str)],
) -> Result<Option<(&'static str, String)>, OutOfMemory> {
    for (text, want) in cases {
        let came = fault_in(alloc, text, inherited)?;
        if came.as_str() != *want {
            return Ok(Some((*text, came)));
        }
    }
    Ok(None)
}

#[test]
fn the_first_fault_is_reported(rt: HostRuntime) -> Result<(), Fail> {
    let nothing = Scope::empty(rt.alloc())?;
    assert_eq!(rt; differing(rt.alloc(), &nothing, FAULTS)?, None);
    assert_eq!(rt; differing(rt.alloc(), &nothing, WITHOUT_A_SUM)?, None);
    Ok(())
}

// The line of the first fault where a value is doubled that many times.
fn fault_of_doubled(alloc: Global, value: &str, times: usize) -> Result<String, OutOfMemory> {
    let nothing = Scope::empty(alloc)?;
    let text = doubled(alloc, value, times)?;
    fault_in(alloc, text.as_str(), &nothing)
}

#[test]
fn a_sum_can_be_too_large(rt: HostRuntime) -> Result<(), Fail> {
    let strings = fault_of_doubled(rt.alloc(), "\"x\"", 20)?;
    assert_eq!(rt; strings.as_str(), ":22:9: error 30: too many: string\n");
    let lists = fault_of_doubled(rt.alloc(), "[\"x\"]", 16)?;
    assert_eq!(rt; lists.as_str(), ":18:9: error 30: too many: list\n");
    Ok(())
}

// The fault of that many maps, each in the one before, with more text behind them.
fn fault_of_maps(alloc: Global, count: usize, more: &str) -> Result<String, OutOfMemory> {
    let nothing = Scope::empty(alloc)?;
    let mut text = maps(alloc, count)?;
    text.push_str(more)?;
    fault_in(alloc, text.as_str(), &nothing)
}

const NESTS: &[(usize, &str, &str)] = &[
    (64, "", ""),
    (64, "\ny = {a: x}", ":2:5: error 8: nested too deeply\n"),
    (65, "", ":1:197: error 8: nested too deeply\n"),
];

#[test]
fn maps_nest_up_to_the_limit(rt: HostRuntime) -> Result<(), Fail> {
    for (count, more, want) in NESTS {
        let came = fault_of_maps(rt.alloc(), *count, more)?;
        assert_eq!(rt; came.as_str(), *want, "{count} {more}");
    }
    Ok(())
}

// The scope of a text that inherits nothing. That of a text over 1 MiB is empty.
fn scope_of(alloc: Global, text: &str) -> Result<Scope, EvalError> {
    let nothing = Scope::empty(alloc)?;
    if text.len() > 1 << 20 {
        return Ok(nothing);
    }
    Ok(evaluated(alloc, text, &nothing)?.1)
}

// Whether both scopes have the variable, with one value.
fn is_in_both(one: &Scope, other: &Scope, name: &Text) -> bool {
    match (one.get(name), other.get(name)) {
        (Some(sum), Some(value)) => sum == value,
        _ => false,
    }
}

// Whether two texts give the variable one value.
fn give_one_value(alloc: Global, text: &str, plain: &str, name: &Text) -> Result<bool, EvalError> {
    let scope = scope_of(alloc, text)?;
    let other = scope_of(alloc, plain)?;
    Ok(is_in_both(&scope, &other, name))
}

const SUMS: &[(&str, &str)] = &[
    (
        "x = {a: 1, b: \"s\"} + {b: \"t\", c: true}",
        "x = {a: 1, b: \"st\",           c: true}",
    ),
    (
        "m = {b: 1}\nx = {a: 2, b: 3} + m",
        "m = 1 + 3 \nx = {a: 2, b: m}",
    ),
    (
        "x = {a: {b: \"p\"}} + {a: {b: \"q\",\n c: 1}}",
        "x = {a: {b: \"pq\",\n c: 1}}",
    ),
    (
        "x = {a: \"p\"}\nx += {a: \"q\", b: false}",
        "x = {a: \"pq\",\n              b: false}",
    ),
    (
        "x = {a: 1, b: 2} + {c: 3} + {b: 4, d: 5} + {d: 6, a: 7}",
        "x = {a: 8, b: 6,    c: 3,          d: 11}",
    ),
    (
        "x = {a: 1}\nx += {b: 2}\nx += {a: 3, c: 4}\nx += {c: 5, b: 6}",
        "x = {a: 4,\n      b: 8,\n            c: 9}",
    ),
    (
        "x = {a: {b: \"p\"}} + {a: {b: \"q\",\n d: 2}} +\n {c: 1}",
        "x = {a: {b: \"pq\",\n d: 2},\n  c: 1}",
    ),
    (
        "x = {m: {a: 1, b: 2}} + {m: {c: 3}} + {m: {b: 4, c: 5, d: 6}}",
        "x = {m: {a: 1, b: 6,         c: 8,                     d: 6}}",
    ),
];

#[test]
fn sums_are_the_values_written_out(rt: HostRuntime) -> Result<(), Fail> {
    let x = Text::from_str(rt.alloc(), "x")?;
    for (text, plain) in SUMS {
        assert!(rt; give_one_value(rt.alloc(), text, plain, &x)?, "{text}");
    }
    Ok(())
}

// Whether a scope has a variable.
fn has(alloc: Global, scope: &Scope, name: &str) -> Result<bool, OutOfMemory> {
    Ok(scope.get(&Text::from_str(alloc, name)?).is_some())
}

#[test]
fn an_inherited_variable_is_not_extended(rt: HostRuntime) -> Result<(), Fail> {
    let above = scope_of(rt.alloc(), "flags = [\"-Wall\"]")?;
    let fault = fault_in(rt.alloc(), "flags += [\"-O2\"]", &above)?;
    assert_eq!(rt;
        fault.as_str(),
        ":1:1: error 12: variable is inherited: flags\n"
    );
    Ok(())
}

// How many modules a short text has under a scope, and whether its own scope has a variable.
fn seen(alloc: Global, text: &str, above: &Scope, name: &str) -> Result<(usize, bool), EvalError> {
    if text.len() > 1 << 20 {
        return Ok((0, false));
    }
    let (modules, scope) = evaluated(alloc, text, above)?;
    Ok((modules.len(), has(alloc, &scope, name)?))
}

#[test]
fn a_file_sees_the_scope_above(rt: HostRuntime) -> Result<(), Fail> {
    let above = scope_of(rt.alloc(), "flags = [\"-Wall\"]")?;
    assert_eq!(rt;
        seen(rt.alloc(), "cc { flags: flags }", &above, "flags")?,
        (1, true)
    );
    let nothing = Scope::empty(rt.alloc())?;
    assert!(rt; !has(rt.alloc(), &nothing, "flags")?);
    Ok(())
}

#[test]
fn integers_are_added(rt: HostRuntime) -> Result<(), Fail> {
    let at = Place {
        file: 1,
        line: 1,
        col: 1,
    };
    let five = sum(rt.alloc(), &Value::Int(7), &Value::Int(-2), at)?;
    assert!(rt; five == Value::Int(5));
    Ok(())
}

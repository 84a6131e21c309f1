use bp_faults::{FaultKind, Item, OutOfMemory, Path, Payload, Place, Text};
use bp_props::{GroupId, Module};
use bp_values::{Entry, RawModule, Value};
use property_tables::{LoadError, typed};
use std::alloc::Global;
use std::test::Fail;

/// The value of an entry: a truth, a string, or a list of the words between spaces.
#[derive(Clone, Copy, Debug)]
enum Given {
    Truth,
    Word(&'static str),
    Words(&'static str),
}

const PLACE: Place = Place {
    file: 1,
    line: 1,
    col: 1,
};

fn words(alloc: Global, words: &str) -> Result<Value, OutOfMemory> {
    let mut items = Vec::new(alloc);
    for word in words.split(' ') {
        items.push(Item {
            text: Text::from_str(alloc, word)?,
            at: PLACE,
        })?;
    }
    Ok(Value::Strs(items))
}

fn value(alloc: Global, given: Given) -> Result<Value, OutOfMemory> {
    match given {
        Given::Truth => Ok(Value::Bool(true)),
        Given::Word(word) => Ok(Value::Str(Text::from_str(alloc, word)?)),
        Given::Words(list) => words(alloc, list),
    }
}

fn entry(alloc: Global, name: &str, value: Value) -> Result<Entry, OutOfMemory> {
    Ok(Entry {
        name: Text::from_str(alloc, name)?,
        at: PLACE,
        value,
    })
}

/// An entry of a dotted path: the value in a map for each of its groups.
fn nested(alloc: Global, path: &str, given: Given) -> Result<Entry, OutOfMemory> {
    match path.split_once('.') {
        Some((group, rest)) => {
            let mut inner = Vec::new(alloc);
            match rest.split_once('.') {
                Some((id, name)) => {
                    let mut innermost = Vec::new(alloc);
                    innermost.push(entry(alloc, name, value(alloc, given)?)?)?;
                    inner.push(entry(alloc, id, Value::Map(innermost))?)?;
                }
                None => inner.push(entry(alloc, rest, value(alloc, given)?)?)?,
            }
            entry(alloc, group, Value::Map(inner))
        }
        None => entry(alloc, path, value(alloc, given)?),
    }
}

/// A module of a type, with its name and one more property; an empty name isn't given.
fn raw(
    alloc: Global,
    kind: &str,
    name: &str,
    path: &str,
    given: Given,
) -> Result<RawModule, OutOfMemory> {
    let mut entries = Vec::new(alloc);
    entries.push(nested(alloc, path, given)?)?;
    if !name.is_empty() {
        entries.push(entry(alloc, "name", Value::Str(Text::from_str(alloc, name)?))?)?;
    }
    Ok(RawModule {
        kind: Text::from_str(alloc, kind)?,
        at: PLACE,
        entries,
    })
}

fn typed_in(
    alloc: Global,
    kind: &str,
    name: &str,
    path: &str,
    given: Given,
) -> Result<Option<Module>, LoadError> {
    let dir = Path::new(Text::from_str(alloc, "d/e")?).unwrap_or(Path::root(alloc));
    typed(alloc, &raw(alloc, kind, name, path, given)?, &dir)
}

/// Type, name, dotted path of a property, its value, and the fault that is wanted with its subject.
const ROWS: &[(&str, &str, &str, Given, Option<(FaultKind, &str)>)] = &[
    ("cc_binary", "a.b+c-d@e_9", "enabled", Given::Truth, None),
    (
        "cc_library",
        "m",
        "srcs",
        Given::Words("./a.c :b ..a/b.."),
        None,
    ),
    (
        "cc_library_static",
        "m",
        "cflags",
        Given::Words("-a -b"),
        None,
    ),
    (
        "cc_library_shared",
        "m",
        "include_dirs",
        Given::Words(". a//b"),
        None,
    ),
    (
        "cc_library_headers",
        "m",
        "local_include_dirs",
        Given::Words("."),
        None,
    ),
    ("cc_test", "m", "static_libs", Given::Words("a b"), None),
    ("cc_defaults", "m", "defaults", Given::Words("a"), None),
    ("filegroup", "m", "path", Given::Word("a"), None),
    ("package", "", "name", Given::Truth, None),
    ("license", "", "nam", Given::Truth, None),
    ("cc_test", "m", "tidy", Given::Truth, None),
    ("cc_test", "m", "stl", Given::Word("none"), None),
    ("cc_test", "m", "visibility", Given::Words("a"), None),
    ("cc_test", "m", "host_supported", Given::Truth, None),
    (
        "cc_test",
        "m",
        "compile_multilib",
        Given::Word("both"),
        None,
    ),
    (
        "cc_test",
        "m",
        "compile_multilib",
        Given::Word("first"),
        None,
    ),
    ("cc_test", "m", "compile_multilib", Given::Word("64"), None),
    (
        "cc_test",
        "m",
        "min_sdk_version",
        Given::Word("current"),
        None,
    ),
    ("cc_test", "m", "min_sdk_version", Given::Word("9999"), None),
    ("cc_test", "m", "sanitize.address", Given::Truth, None),
    (
        "cc_test",
        "m",
        "arch.x86_64.cppflags",
        Given::Words("a"),
        None,
    ),
    ("cc_test", "m", "multilib.lib32.enabled", Given::Truth, None),
    (
        "cc_test",
        "m",
        "target.linux_glibc.srcs",
        Given::Words("a.c"),
        None,
    ),
    (
        "cc_library",
        "m",
        "static.shared_libs",
        Given::Words("a"),
        None,
    ),
    (
        "java_library",
        "",
        "nam",
        Given::Truth,
        Some((FaultKind::UnknownType, "java_library")),
    ),
    (
        "cc_test",
        "",
        "nam",
        Given::Truth,
        Some((FaultKind::UnknownProperty, "nam")),
    ),
    (
        "cc_test",
        "m",
        "arch.mips.srcs",
        Given::Truth,
        Some((FaultKind::UnknownProperty, "arch.mips")),
    ),
    (
        "cc_test",
        "..",
        "srcs",
        Given::Truth,
        Some((FaultKind::WrongType, "srcs")),
    ),
    (
        "cc_test",
        "m",
        "target",
        Given::Truth,
        Some((FaultKind::WrongType, "target")),
    ),
    (
        "cc_test",
        "m",
        "target.host.srcs",
        Given::Truth,
        Some((FaultKind::WrongType, "target.host.srcs")),
    ),
    (
        "cc_test",
        "",
        "tidy",
        Given::Truth,
        Some((FaultKind::MissingName, "cc_test")),
    ),
    (
        "cc_test",
        "..",
        "tidy",
        Given::Truth,
        Some((FaultKind::BadName, "..")),
    ),
    (
        "cc_test",
        "m",
        "cflags",
        Given::Words("a b\tc"),
        Some((FaultKind::BadValue, "cflags")),
    ),
    (
        "cc_test",
        "m",
        "compile_multilib",
        Given::Word(""),
        Some((FaultKind::BadValue, "compile_multilib")),
    ),
    (
        "cc_test",
        "m",
        "min_sdk_version",
        Given::Word("10000"),
        Some((FaultKind::BadValue, "min_sdk_version")),
    ),
    (
        "cc_test",
        "m",
        "srcs",
        Given::Words("a/../b"),
        Some((FaultKind::BadPath, "a/../b")),
    ),
    (
        "cc_test",
        "m",
        "include_dirs",
        Given::Words("a|b"),
        Some((FaultKind::BadPath, "a|b")),
    ),
];

/// The kind and the subject of a fault, if there is one.
type Refused<T> = Option<(FaultKind, T)>;

/// What a module of one property is refused for, if it is.
fn refused(
    alloc: Global,
    (kind, name, path): (&str, &str, &str),
    given: Given,
) -> Result<Refused<Text>, OutOfMemory> {
    match typed_in(alloc, kind, name, path, given) {
        Ok(_) => Ok(None),
        Err(LoadError::Bad(fault)) => Ok(Some((fault.kind, fault.subject.copy(alloc)?))),
        Err(LoadError::OutOfMemory) => Err(OutOfMemory),
    }
}

/// The same with a text of its own.
fn owned(alloc: Global, want: Refused<&str>) -> Result<Refused<Text>, OutOfMemory> {
    match want {
        Some((kind, subject)) => Ok(Some((kind, Text::from_str(alloc, subject)?))),
        None => Ok(None),
    }
}

#[test]
fn modules_are_typed_or_refused(rt: HostRuntime) -> Result<(), Fail> {
    for (kind, name, path, given, want) in ROWS {
        assert_eq!(rt;
            refused(rt.alloc(), (*kind, *name, *path), *given)?,
            owned(rt.alloc(), *want)?,
            "{kind} {name} {path} {given:?}"
        );
    }
    Ok(())
}

/// A module's name, and behind it the sources of a group.
fn shown(alloc: Global, module: &Module, group: GroupId) -> Result<String, OutOfMemory> {
    let mut shown = String::from_str(alloc, module.name.as_str())?;
    if let Some(group) = module.props.group(group) {
        for source in group.srcs.items() {
            shown.push_str(" ")?;
            shown.push_str(source.item.text.as_str())?;
        }
    }
    Ok(shown)
}

/// The defaults of a name with these sources for Android, as they are shown.
fn shown_defaults(alloc: Global, name: &str, sources: Given) -> Result<String, LoadError> {
    match typed_in(alloc, "cc_defaults", name, "target.android.srcs", sources)? {
        Some(module) => Ok(shown(alloc, &module, GroupId::Android)?),
        None => Ok(String::new(alloc)),
    }
}

#[test]
fn values_go_into_the_record(rt: HostRuntime) -> Result<(), Fail> {
    let sources = Given::Words("./x//y.c :gen ./:x.c");
    assert_eq!(rt;
        shown_defaults(rt.alloc(), "demo", sources)?.as_str(),
        "demo d/e/x/y.c gen d/e/:x.c"
    );
    Ok(())
}

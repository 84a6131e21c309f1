ghost use Rattle.std.specs.Prelude.{◌≡◌, ◌≤◌, ◌^◌, length, map, IfOk};
ghost use Rattle.std.specs.List.{All};
ghost use Rattle.bp_load.specs.Directories.{AreInFileOrder};
ghost use Rattle.bp_load.specs.Trees.{sources_given};

use bp_faults::{Fault, OutOfMemory, Path, fault_line};
use bp_load::{LoadError, file_list, load, raw_modules};
use bp_props::Module;
use bp_values::RawModule;
use std::alloc::Global;
use std::test::Fail;
use std::thread::Threads;

// The bytes of a small file.
fn bytes_of(alloc: Global, text: &str) -> Result<Vec<u8>, OutOfMemory>
    ensures { IfOk result (λ bytes. length bytes.items ≤ 2 ^ 20) }
{
    let mut bytes = Vec::new(alloc);
    if text.len() <= 1_048_576 {
        bytes.extend_from_slice(text.as_bytes())?;
    }
    Ok(bytes)
}

// The files of a list, with the contents that are given in file order.
fn files_of(alloc: Global, list: &str, contents: &[&str]) -> Result<Vec<(Path, Vec<u8>)>, LoadError>
    requires { length list.now ≤ 2 ^ 22 }
    ensures few { IfOk result (λ files. length files.items ≤ 2 ^ 14) }
    ensures order { IfOk result (λ files. AreInFileOrder (map (λ f. f.0) (sources_given files.items))) }
    ensures short { IfOk result (λ files. All (λ f. length f.1 ≤ 2 ^ 20) (sources_given files.items)) }
{
    let paths = file_list(alloc, list.as_bytes())?;
    let mut files = Vec::new(alloc);
    for path in paths {
        let text = contents.get(files.len()).copied().unwrap_or("");
        files.push((path, bytes_of(alloc, text)?))?;
    }
    Ok(files)
}

// Paths, each with LF.
fn lines(alloc: Global, paths: &[Path]) -> Result<String, OutOfMemory> {
    let mut text = String::new(alloc);
    for path in paths {
        text.push_str(path.as_str())?;
        text.push_str("\n")?;
    }
    Ok(text)
}

// What a list file is: its paths, each with LF, or the line of its fault. One over 4 MiB isn't read.
fn listed(alloc: Global, bytes: &[u8]) -> Result<String, OutOfMemory> {
    if bytes.len() > 1 << 22 {
        return Ok(String::from_str(alloc, "over 4 MiB")?);
    }
    match file_list(alloc, bytes) {
        Ok(paths) => lines(alloc, paths.as_slice()),
        Err(LoadError::Bad(fault)) => fault_line(alloc, &fault, &[]),
        Err(LoadError::OutOfMemory) => Err(OutOfMemory),
    }
}

// The names of modules with their directories.
fn names(alloc: Global, modules: &[Module]) -> Result<String, OutOfMemory> {
    let mut text = String::new(alloc);
    for module in modules {
        text.push_str(module.dir.as_str())?;
        text.push_str(":")?;
        text.push_str(module.name.as_str())?;
        text.push_str("\n")?;
    }
    Ok(text)
}

// The line of a fault, with the number of the file before it.
fn numbered(alloc: Global, fault: &Fault) -> Result<String, OutOfMemory> {
    let line = fault_line(alloc, fault, &[])?;
    let file = fault.at.file;
    Ok(format!(in alloc; "{file}{line}")?)
}

// The modules of the files of a list, as so many workers load them.
fn loaded_files<R: Threads + Sync>(
    rt: &R,
    alloc: Global,
    list: &str,
    contents: &[&str],
    workers: u32,
) -> Result<Vec<Module>, LoadError>
    requires { length list.now ≤ 2 ^ 22 }
{
    let files = files_of(alloc, list, contents)?;
    load(rt, alloc, files.as_slice(), workers)
}

// What files load as by so many workers: the names of the modules with their directories, or the line of the
// first fault, with the number of the file before it. A list over 4 MiB isn't read.
fn loaded_by<R: Threads + Sync>(
    rt: &R,
    alloc: Global,
    list: &str,
    contents: &[&str],
    workers: u32,
) -> Result<String, OutOfMemory> {
    if list.len() > 1 << 22 {
        return Ok(String::from_str(alloc, "over 4 MiB")?);
    }
    match loaded_files(rt, alloc, list, contents, workers) {
        Ok(modules) => names(alloc, modules.as_slice()),
        Err(LoadError::Bad(fault)) => numbered(alloc, &fault),
        Err(LoadError::OutOfMemory) => Err(OutOfMemory),
    }
}

// The first number of workers by whom the files don't load so, and what came.
fn differing<R: Threads + Sync>(
    rt: &R,
    alloc: Global,
    (list, contents): (&str, &[&str]),
    numbers: &[u32],
    want: &str,
) -> Result<Option<(u32, String)>, OutOfMemory> {
    for workers in numbers {
        let came = loaded_by(rt, alloc, list, contents, *workers)?;
        if came.as_str() != want {
            return Ok(Some((*workers, came)));
        }
    }
    Ok(None)
}

// A text so many times, between two others.
fn repeated(
    alloc: Global,
    before: &str,
    part: &str,
    count: u32,
    behind: &str,
) -> Result<String, OutOfMemory> {
    let mut text = String::from_str(alloc, before)?;
    for _ in 0..count {
        text.push_str(part)?;
    }
    text.push_str(behind)?;
    Ok(text)
}

// So many modules, whose names begin with a letter.
fn modules(alloc: Global, letter: &str, count: u32) -> Result<String, OutOfMemory> {
    let mut text = String::new(alloc);
    for number in 0..count {
        text.push_str(format!(in alloc;
            "filegroup {{\n    name: \"{letter}{number}\",\n}}\n"
        )?.as_str())?;
    }
    Ok(text)
}

// The kinds of raw modules, each with its directory.
fn kinds(alloc: Global, modules: &[(Path, RawModule)]) -> Result<String, OutOfMemory> {
    let mut shown = String::new(alloc);
    for (dir, raw) in modules {
        shown.push_str(dir.as_str())?;
        shown.push_str(":")?;
        shown.push_str(raw.kind.as_str())?;
        shown.push_str("\n")?;
    }
    Ok(shown)
}

// The raw modules of files, each with its directory. A list over 4 MiB isn't read.
fn raw_shown(alloc: Global, list: &str, contents: &[&str]) -> Result<String, LoadError> {
    if list.len() > 1 << 22 {
        return Ok(String::from_str(alloc, "over 4 MiB")?);
    }
    let files = files_of(alloc, list, contents)?;
    let modules = raw_modules(alloc, files.as_slice())?;
    Ok(kinds(alloc, modules.as_slice())?)
}

const LISTS: &[(&str, &str)] = &[
    ("./a/Android.bp\n\na/Android.bp\n", "a/Android.bp\n"),
    (
        "./b/a/Android.bp\r\n \t\n././b/Android.bp\nb.c/Android.bp\nAndroid.bp\nb/A/Android.bp",
        "Android.bp\nb/Android.bp\nb/A/Android.bp\nb/a/Android.bp\nb.c/Android.bp\n",
    ),
    ("", ""),
    ("a*/Android.bp", "a*/Android.bp\n"),
    (
        "../x/Android.bp",
        ":1:1: error 33: bad path in list: ../x/Android.bp\n",
    ),
    (
        "Android.bp\n./x//Android.bp\r\n",
        ":2:1: error 33: bad path in list: ./x//Android.bp\n",
    ),
    (
        "a/Android.bp\r",
        ":1:1: error 33: bad path in list: a/Android.bp?\n",
    ),
    (
        "a|b/Android.bp",
        ":1:1: error 33: bad path in list: a|b/Android.bp\n",
    ),
    (
        "aAndroid.bp",
        ":1:1: error 33: bad path in list: aAndroid.bp\n",
    ),
    (
        "/Android.bp",
        ":1:1: error 33: bad path in list: /Android.bp\n",
    ),
];

#[test]
fn a_list_is_read_as_a_finder_writes_it(rt: HostRuntime) -> Result<(), Fail> {
    for (list, want) in LISTS {
        let came = listed(rt.alloc(), list.as_bytes())?;
        assert_eq!(rt; came.as_str(), *want, "of {list}");
    }
    Ok(())
}

#[test]
fn a_list_is_utf_8(rt: HostRuntime) -> Result<(), Fail> {
    let list = b"a/Android.bp\n\xc3\xa4\xff";
    let came = listed(rt.alloc(), list)?;
    assert_eq!(rt; came.as_str(), ":2:2: error 1: not UTF-8\n");
    Ok(())
}

const TWO: &str = "Android.bp\na/Android.bp";

const SISTERS: &str = "a/Android.bp\nb/Android.bp";

const DEEP: &str = "Android.bp\na/Android.bp\na/b/c/Android.bp\nd/Android.bp";

// Lists, the contents of their files, and what these load as.
const SCOPES: &[(&str, &[&str], &str)] = &[
    (
        TWO,
        &["flags = [\"-Wall\"]", "flags += [\"-O2\"]", "", ""],
        "2:1:1: error 12: variable is inherited: flags\n",
    ),
    (
        SISTERS,
        &["x = \"1\"", "y = x", "", ""],
        "2:1:5: error 10: unknown variable: x\n",
    ),
    (
        TWO,
        &["", "x = [\"a\"]\ny = x\nx += [\"b\"]", "", ""],
        "2:3:1: error 13: variable was already used: x\n",
    ),
    (
        TWO,
        &["x = \"a\"\nx = \"b\"", "", "", ""],
        "1:2:1: error 11: variable is already set: x\n",
    ),
    (
        DEEP,
        &[
            "n = \"r\"",
            "m = n + \"a\"",
            "filegroup { name: m + \"c\" }",
            "filegroup { name: n }",
        ],
        "a/b/c:rac\nd:r\n",
    ),
    (
        DEEP,
        &["", "m = \"a\"", "", "filegroup { name: m }"],
        "4:1:19: error 10: unknown variable: m\n",
    ),
];

#[test]
fn a_file_inherits_the_scope_of_its_nearest_ancestor(rt: HostRuntime) -> Result<(), Fail> {
    for (list, contents, want) in SCOPES {
        let came = loaded_by(&rt, rt.alloc(), list, contents, 4)?;
        assert_eq!(rt; came.as_str(), *want);
    }
    Ok(())
}

const PHASES: &[(&[&str], &str)] = &[
    (
        &["no_type { }", "x = y", "x = {"],
        "3:1:6: error 7: unexpected token: end of file\n",
    ),
    (
        &["no_type { }", "x = y", "license { }"],
        "2:1:5: error 10: unknown variable: y\n",
    ),
    (
        &[
            "filegroup { name: \"n\" }",
            "filegroup { name: \"n\" }",
            "no_type { }",
        ],
        "3:1:1: error 15: unknown module type: no_type\n",
    ),
    (
        &[
            "filegroup { name: \"n\" }",
            "package { }",
            "filegroup { name: \"n\" }",
        ],
        "3:1:13: error 20: duplicate module name: n\n",
    ),
    (&["\"", "`", "$"], "1:1:1: error 3: unterminated string\n"),
];

#[test]
fn the_first_phase_that_has_a_fault_tells_it(rt: HostRuntime) -> Result<(), Fail> {
    let three = "Android.bp\na/Android.bp\nb/Android.bp";
    for (contents, want) in PHASES {
        let came = loaded_by(&rt, rt.alloc(), three, contents, 4)?;
        assert_eq!(rt; came.as_str(), *want);
    }
    Ok(())
}

#[test]
fn raw_modules_have_the_directories_of_their_files(rt: HostRuntime) -> Result<(), Fail> {
    let shown = raw_shown(
        rt.alloc(),
        "a/b/Android.bp\nAndroid.bp",
        &["one { }", "two { }\nsix { }"],
    )?;
    assert_eq!(rt; shown.as_str(), ":one\na/b:two\na/b:six\n");
    Ok(())
}

// Files in three folders.
const THREE: &str = "a/Android.bp\nb/Android.bp\nc/Android.bp";

// Parsing comes before evaluation, and of two faults of parsing that of the first file is told.
#[test]
fn first_parse_fault(rt: HostRuntime) -> Result<(), Fail> {
    let contents = ["x = [1]", "/* x", "y = $"];
    let files = (THREE, contents.as_slice());
    let want = "2:1:1: error 4: unterminated comment\n";
    assert_eq!(rt; differing(&rt, rt.alloc(), files, &[1, 2, 64], want)?, None);
    Ok(())
}

// The fault at the end of the large file is found after those of the small ones.
#[test]
fn a_large_files_fault_is_told_before_a_small_ones(rt: HostRuntime) -> Result<(), Fail> {
    let large = repeated(rt.alloc(), "x = [", "\"a\",", 25_000, "")?;
    let contents = [large.as_str(), "y = $", "`"];
    let files = (THREE, contents.as_slice());
    let want = "1:1:100006: error 7: unexpected token: end of file\n";
    assert_eq!(rt; differing(&rt, rt.alloc(), files, &[1, 2, 64], want)?, None);
    Ok(())
}

#[test]
fn a_large_files_fault_between_two_others_is_told(rt: HostRuntime) -> Result<(), Fail> {
    let large = repeated(rt.alloc(), "x = [", "\"a\",", 25_000, "")?;
    let half = repeated(rt.alloc(), "x = [", "\"a\",", 10_000, "]")?;
    let contents = [half.as_str(), large.as_str(), "y = $"];
    let files = (THREE, contents.as_slice());
    let want = "2:1:100006: error 7: unexpected token: end of file\n";
    assert_eq!(rt; differing(&rt, rt.alloc(), files, &[1, 2, 64], want)?, None);
    Ok(())
}

// The number of lines that one worker loads the files as, and the first of some numbers of workers who load them
// otherwise.
fn compared<R: Threads + Sync>(
    rt: &R,
    alloc: Global,
    files: (&str, &[&str]),
    numbers: &[u32],
) -> Result<(usize, Option<(u32, String)>), OutOfMemory> {
    let one = loaded_by(rt, alloc, files.0, files.1, 1)?;
    let other = differing(rt, alloc, files, numbers, one.as_str())?;
    Ok((one.as_str().lines().count(), other))
}

// More modules than one worker types, in more bytes than one worker parses.
#[test]
fn several_workers_load_what_one_loads(rt: HostRuntime) -> Result<(), Fail> {
    let a = modules(rt.alloc(), "a", 4)?;
    let b = modules(rt.alloc(), "b", 3_000)?;
    let c = modules(rt.alloc(), "c", 1_500)?;
    let contents = [a.as_str(), b.as_str(), c.as_str()];
    let files = (THREE, contents.as_slice());
    assert_eq!(rt;
        compared(&rt, rt.alloc(), files, &[2, 3, 64])?,
        (4_504, None)
    );
    Ok(())
}

// Modules in the scope of a definition that stands before them.
fn modules_behind(
    alloc: Global,
    definition: &str,
    letter: &str,
    count: u32,
) -> Result<String, OutOfMemory> {
    let mut text = String::from_str(alloc, definition)?;
    text.push_str("\n")?;
    text.push_str(modules(alloc, letter, count)?.as_str())?;
    Ok(text)
}

// Whether what one worker loads begins, goes on and ends as the branches do.
fn inherits_in_branches<R: Threads + Sync>(
    rt: &R,
    alloc: Global,
    files: (&str, &[&str]),
) -> Result<bool, OutOfMemory> {
    let one = loaded_by(rt, alloc, files.0, files.1, 1)?;
    let one = one.as_str();
    Ok(
        one.starts_with(":r\na:a0\n")
            && one.contains("\na/b:rab\nc:c0\n")
            && one.ends_with("\nc/d:rcd\n"),
    )
}

// The root's file is above two branches, in more bytes than one worker evaluates. In each branch a file inherits from
// the file of its own branch, which inherits from the root's.
#[test]
fn branches_inherit_from_the_trunk(rt: HostRuntime) -> Result<(), Fail> {
    let list = "Android.bp\na/Android.bp\na/b/Android.bp\nc/Android.bp\nc/d/Android.bp";
    let a = modules_behind(rt.alloc(), "x = r + \"a\"", "a", 1_500)?;
    let c = modules_behind(rt.alloc(), "x = r + \"c\"", "c", 1_500)?;
    let contents = [
        "r = \"r\"\nfilegroup { name: r }",
        a.as_str(),
        "filegroup { name: x + \"b\" }",
        c.as_str(),
        "filegroup { name: x + \"d\" }",
    ];
    let files = (list, contents.as_slice());
    assert!(rt; inherits_in_branches(&rt, rt.alloc(), files)?);
    assert_eq!(rt;
        compared(&rt, rt.alloc(), files, &[2, 3, 64])?,
        (3_003, None)
    );
    Ok(())
}

// So many modules, and a definition of an unknown variable behind them.
fn modules_before_a_fault(alloc: Global, count: u32) -> Result<String, OutOfMemory> {
    let mut large = modules(alloc, "m", count)?;
    large.push_str("y = z\n")?;
    Ok(large)
}

// The fault at the end of the large file is found after that of the small one, which is of another branch.
#[test]
fn the_front_branchs_fault_is_told(rt: HostRuntime) -> Result<(), Fail> {
    let list = "Android.bp\na/Android.bp\na/b/Android.bp\nb/Android.bp";
    let large = modules_before_a_fault(rt.alloc(), 3_000)?;
    let contents = ["r = \"r\"", large.as_str(), "", "y = r + z"];
    let files = (list, contents.as_slice());
    let want = "2:9001:5: error 10: unknown variable: z\n";
    assert_eq!(rt; differing(&rt, rt.alloc(), files, &[1, 2, 64], want)?, None);
    Ok(())
}

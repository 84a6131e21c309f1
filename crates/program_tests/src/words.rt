use bp_faults::{OutOfMemory, Text};
use command_words::{
    COMMANDS, Configuration, HELP, HELP_PARTS, OptionName, configure, explanation, notice_of,
    options, question_of, usage_line, why,
};
use std::alloc::{AllocError, Global};
use std::test::Fail;

// The words of a line, which blanks part. An empty line has none.
fn words_of(alloc: Global, line: &str) -> Result<Vec<Text>, OutOfMemory> {
    let mut words = Vec::new(alloc);
    if line != "" {
        for word in line.split(' ') {
            words.push(Text::from_str(alloc, word)?)?;
        }
    }
    Ok(words)
}

// A configuration as a text.
fn told(alloc: Global, found: &Option<Configuration>) -> Result<String, OutOfMemory> {
    Ok(format!(in alloc; "{found:?}")?)
}

// What words give, as a text.
fn shown_of(alloc: Global, words: &[Text]) -> Result<String, OutOfMemory> {
    match configure(alloc, words) {
        Ok(found) => told(alloc, &found),
        Err(OutOfMemory) => Err(OutOfMemory),
    }
}

// What the words of a line give, as a text.
fn shown(alloc: Global, line: &str) -> Result<String, OutOfMemory> {
    let words = words_of(alloc, line)?;
    shown_of(alloc, words.as_slice())
}

// Two lines that give one configuration, and parts of how it is shown.
const GIVEN: &[(&str, &str, &str, &str)] = &[
    (
        "build -l list -o o -j4 --targets=android_arm",
        "build -t android_arm --jobs 4 --out=o -llist",
        "workers: 4,",
        "AndroidArm]",
    ),
    (
        "build -l list -o o",
        "build -l list -o o -j 04 -t android_arm64,android_arm,linux_glibc_x86_64",
        "journal: None",
        "LinuxGlibcX86_64]",
    ),
    (
        "build -l a=b -o o --journal j=k",
        "build --journal=j=k --list=a=b -oo",
        "\"a=b\"",
        "\"j=k\"",
    ),
    (
        "fmt -i Android.bp -o Android.bp",
        "fmt --out=Android.bp --in=Android.bp",
        "Format(",
        "\"Android.bp\"",
    ),
    (
        "replay -l list -o o --order p",
        "replay --order=p -llist -oo",
        "Replay(",
        "\"p\"",
    ),
    (
        "graph -a info -l list -j64",
        "graph -l list --after=info --jobs=64",
        "after: 11,",
        "workers: 64,",
    ),
    (
        "synth --seed 0000000007 --modules 100000 -j 4",
        "synth --seed=7 --modules=0000100000",
        "seed: 7,",
        "modules: 100000,",
    ),
    (
        "synth --modules 1 --seed 4294967295",
        "synth --seed=4294967295 --modules=1 -j4",
        "seed: 4294967295,",
        "workers: 4",
    ),
    (
        "edit -i f -o f -m app -p srcs --items a.c,-b",
        "edit -if -of -mapp -psrcs --items=a.c,-b",
        "\"-b\"",
        "\"srcs\"",
    ),
];

const REFUSED: &[&str] = &[
    "",
    "build",
    "Build -l list -o o",
    "build -l list",
    "build -o o",
    "build -l list -o",
    "build -l list -o o -l list",
    "build -l list -o o --list=list",
    "build -l list -o o -a info",
    "build -l list -o o --order p",
    "build -l list -o -o",
    "build -l list --out=",
    "build -llist=o --out=list=o",
    "build -l list -o x --journal x",
    "build -l list -o o -j 0",
    "build -l list -o o -j 65",
    "build -l list -o o -j +4",
    "build -l list -o o -j 4 4",
    "build -l list -o o -t android_arm,android_arm",
    "build -l list -o o -t android_arm,",
    "build -l list -o o -t arm",
    "build -l list -o o --",
    "build -l list -o o -h",
    "build -l list -o o --jobs8",
    "replay -l list -o o",
    "replay -l list -o o --order o",
    "graph -l list",
    "graph -l list -a inf",
    "graph -l list -a info -o o",
    "synth --seed 4294967296 --modules 1",
    "synth --seed 00000000007 --modules 2",
    "synth --seed 7 --modules 0",
    "synth --seed 7 --modules 100001",
    "edit -i f -o f -m app -p 1st",
];

// What two lines give in place of one configuration with these parts in how it is shown, if they do.
fn other_than_one(
    alloc: Global,
    one: &str,
    other: &str,
    first: &str,
    second: &str,
) -> Result<Option<String>, OutOfMemory> {
    let found = shown(alloc, one)?;
    let same = shown(alloc, other)?;
    let has_parts = found.as_str().contains(first) && found.as_str().contains(second);
    if found.as_str() == same.as_str() && has_parts {
        return Ok(None);
    }
    Ok(Some(format!(in alloc; "{found} and {same}")?))
}

// The first line that doesn't give what its row says, and what came.
fn wrongly_given(
    alloc: Global,
    rows: &[(&'static str, &str, &str, &str)],
) -> Result<Option<(&'static str, String)>, OutOfMemory> {
    for (one, other, first, second) in rows {
        if let Some(came) = other_than_one(alloc, one, other, first, second)? {
            return Ok(Some((*one, came)));
        }
    }
    Ok(None)
}

#[test]
fn words_and_what_they_give(rt: HostRuntime) -> Result<(), Fail> {
    assert_eq!(rt; wrongly_given(rt.alloc(), GIVEN)?, None);
    Ok(())
}

// What the words of a line give, if they give something.
fn given_by(alloc: Global, line: &str) -> Result<Option<String>, OutOfMemory> {
    let came = shown(alloc, line)?;
    Ok((came.as_str() != "None").then_some(came))
}

// The first line whose words give something, and what.
fn accepted(
    alloc: Global,
    lines: &[&'static str],
) -> Result<Option<(&'static str, String)>, OutOfMemory> {
    for line in lines {
        if let Some(came) = given_by(alloc, line)? {
            return Ok(Some((*line, came)));
        }
    }
    Ok(None)
}

#[test]
fn words_refused(rt: HostRuntime) -> Result<(), Fail> {
    assert_eq!(rt; accepted(rt.alloc(), REFUSED)?, None);
    Ok(())
}

// How the help text begins the line of an option: one that may be left out stands in brackets.
fn option_line(alloc: Global, option: OptionName) -> Result<String, AllocError> {
    let name = option.name();
    let mark = if option.is_required() { ' ' } else { '[' };
    match option.short() {
        Some(short) => format!(in alloc; " {mark}-{short}, --{name} "),
        None => format!(in alloc; " {mark}    --{name} "),
    }
}

// How the lines of the commands begin in the help text, in order: name, options, example.
fn command_lines(alloc: Global) -> Result<Vec<String>, AllocError> {
    let mut lines = Vec::new(alloc);
    for command in COMMANDS {
        let name = command.name();
        lines.push(format!(in alloc; "{name}: ")?)?;
        for option in options(command) {
            lines.push(option_line(alloc, *option)?)?;
        }
        lines.push(format!(in alloc; "  bpgen {name} -")?)?;
    }
    Ok(lines)
}

// The first line of a text that begins with a blank, but not as the next one of those that are wanted; and how many of
// these are left at the end.
fn unwanted<'a>(text: &'a str, wanted: &[String]) -> (Option<&'a str>, usize) {
    let mut rest = wanted;
    for line in text.split('\n') {
        if let [next, more @ ..] = rest {
            if line.starts_with(next.as_str()) {
                rest = more;
                continue;
            }
        }
        if line.starts_with(' ') {
            return (Some(line), rest.len());
        }
    }
    (None, rest.len())
}

// The help text has these lines in this order, and no other that begins with a blank.
#[test]
fn help_has_the_table_of_options(rt: HostRuntime) -> Result<(), Fail> {
    let wanted = command_lines(rt.alloc())?;
    assert_eq!(rt; unwanted(HELP, wanted.as_slice()), (None, 0));
    Ok(())
}

// The usage line, by the table of commands.
fn usage_of_commands(alloc: Global) -> Result<String, AllocError> {
    let mut line = String::from_str(alloc, "usage: bpgen ")?;
    for (i, command) in COMMANDS.iter().enumerate() {
        line.push_str(if i == 0 { "" } else { "|" })?;
        line.push_str(command.name())?;
    }
    line.push_str(" OPTIONS\n")?;
    Ok(line)
}

// The first example in a text that gives nothing.
fn refused_example<'a>(alloc: Global, help: &'a str) -> Result<Option<&'a str>, OutOfMemory> {
    for line in help.split('\n') {
        if let Some(example) = line.strip_prefix("  bpgen ") {
            if given_by(alloc, example)?.is_none() {
                return Ok(Some(example));
            }
        }
    }
    Ok(None)
}

#[test]
fn help_names_commands_that_are_read(rt: HostRuntime) -> Result<(), Fail> {
    assert_eq!(rt; refused_example(rt.alloc(), HELP)?, None);
    Ok(())
}

#[test]
fn help_has_the_usage_line(rt: HostRuntime) -> Result<(), Fail> {
    let usage = usage_of_commands(rt.alloc())?;
    assert_eq!(rt;
        (usage_line(), HELP.contains(usage_line())),
        (usage.as_str(), true)
    );
    Ok(())
}

// The names that stand in the help text behind these words, up to the next full stop.
fn names_behind(alloc: Global, words: &str) -> Result<Vec<&'static str>, OutOfMemory> {
    let mut names = Vec::new(alloc);
    if let Some((_, rest)) = HELP.split_once(words) {
        if let Some((list, _)) = rest.split_once('.') {
            for name in list.split(',') {
                names.push(name.trim())?;
            }
        }
    }
    Ok(names)
}

// The first of some names of mutators whose number isn't its place among them, from 1.
fn misplaced(
    alloc: Global,
    names: &[&'static str],
) -> Result<Option<(&'static str, String)>, OutOfMemory> {
    for (index, name) in names.iter().enumerate() {
        let line = format!(in alloc; "graph -l list -a {name}")?;
        let came = shown(alloc, line.as_str())?;
        let want = format!(in alloc; "after: {},", index + 1)?;
        if !came.as_str().contains(want.as_str()) {
            return Ok(Some((*name, came)));
        }
    }
    Ok(None)
}

#[test]
fn help_lists_the_mutators_in_order(rt: HostRuntime) -> Result<(), Fail> {
    let names = names_behind(
        rt.alloc(),
        "MUTATOR is one of these, which run in this order:",
    )?;
    assert_eq!(rt; names.len(), 11);
    assert_eq!(rt; misplaced(rt.alloc(), names.as_slice())?, None);
    Ok(())
}

/// The targets in their order, as a tree is built for all of them.
const TARGETS: &str = "\
    build -l list -o o -t \
    android_arm64,android_arm,android_x86_64,android_x86,linux_glibc_x86_64,linux_glibc_x86";

#[test]
fn help_lists_the_targets(rt: HostRuntime) -> Result<(), Fail> {
    let names = names_behind(rt.alloc(), "joined by commas, none twice:")?;
    let mut line = String::from_str(rt.alloc(), "build -l list -o o -t ")?;
    for (index, name) in names.iter().enumerate() {
        line.push_str(if index == 0 { "" } else { "," })?;
        line.push_str(name)?;
    }
    assert_eq!(rt; line.as_str(), TARGETS);
    assert!(rt; given_by(rt.alloc(), TARGETS)?.is_some());
    Ok(())
}

/// What the help text says of each exit status.
const STATUSES: &str = "
Exit status: 0 done, 1 a fault of the input, 2 a wrong command line, 3 a file
can't be read, 4 a file or standard output can't be written, 5 out of memory.
";

#[test]
fn help_lists_the_statuses(rt: HostRuntime) -> Result<(), Fail> {
    assert!(rt; HELP.contains(STATUSES));
    Ok(())
}

// The text of the notice of a line, or an empty one where it gives none.
fn notice_for(alloc: Global, line: &str) -> Result<&'static str, OutOfMemory> {
    let words = words_of(alloc, line)?;
    Ok(notice_of(words.as_slice()).map_or("", |notice| notice.text()))
}

// Lines, each with the text of its notice, or an empty one where the line gives none.
const NOTICES: &[(&str, &str)] = &[
    ("--help", HELP),
    ("-h", HELP),
    ("help", HELP),
    ("--version", "bpgen 0.1.0\n"),
    ("-V", "bpgen 0.1.0\n"),
    ("", ""),
    ("build -h", ""),
    ("--help build", ""),
    ("help help", ""),
    ("help --help", ""),
    ("build build --help", ""),
    ("-v", ""),
];

// The first line whose notice is another, and that notice.
fn wrongly_noticed(
    alloc: Global,
    rows: &[(&'static str, &str)],
) -> Result<Option<(&'static str, &'static str)>, OutOfMemory> {
    for (line, text) in rows {
        let came = notice_for(alloc, line)?;
        if came != *text {
            return Ok(Some((*line, came)));
        }
    }
    Ok(None)
}

#[test]
fn notices(rt: HostRuntime) -> Result<(), Fail> {
    assert_eq!(rt; wrongly_noticed(rt.alloc(), NOTICES)?, None);
    Ok(())
}

// Both ways to ask for a command's part of the help give the part that begins with its name, in the commands' order.
#[test]
fn each_command_has_its_part_of_the_help(rt: HostRuntime) -> Result<(), Fail> {
    for (i, command) in COMMANDS.iter().enumerate() {
        let name = command.name();
        let head = format!(in rt.alloc(); "{name}: ")?;
        let one = format!(in rt.alloc(); "help {name}")?;
        let other = format!(in rt.alloc(); "{name} --help")?;
        let part = notice_for(rt.alloc(), one.as_str())?;
        assert!(rt; part.starts_with(head.as_str()), "{name}: {part}");
        assert_eq!(rt; (part, HELP.contains(part)), (HELP_PARTS[i + 1], true));
        assert_eq!(rt; notice_for(rt.alloc(), other.as_str())?, part);
    }
    Ok(())
}

// Lines, and what is said of their words: each cause, the first where there are several, and no cause.
const EXPLAINED: &[(&str, &str)] = &[
    ("", "no command"),
    ("bulid -l list", "unknown command: bulid; nearest: build"),
    (
        "Build -l list -o o",
        "unknown command: Build; nearest: build",
    ),
    ("frobnicate", "unknown command: frobnicate"),
    ("help help", "unknown command: help"),
    ("--help build", "unknown command: --help"),
    (
        "build --lits list -o o",
        "unknown option of build: --lits; nearest: --list",
    ),
    ("build foo -l list -o o", "unknown option of build: foo"),
    ("build --help -l", "unknown option of build: --help"),
    ("graph --moduls x -o o", "unknown option of graph: --moduls"),
    (
        "synth --seed 1 --moduls 2",
        "unknown option of synth: --moduls; nearest: --modules",
    ),
    ("build -l list -o o -llist", "option given twice: -l"),
    (
        "build -l list -o o --list=list",
        "option given twice: --list",
    ),
    ("build -l list -o", "option without a value: -o"),
    (
        "build -l list -o o --journal",
        "option without a value: --journal",
    ),
    (
        "build -l list -o -o",
        "value out of form: -o; --out takes a text that isn't empty and doesn't begin with -",
    ),
    (
        "build -l list --out=",
        "value out of form: ; --out takes a text that isn't empty and doesn't begin with -",
    ),
    (
        "build -l list -o o -j 65",
        "value out of form: 65; --jobs takes a number from 1 to 64, of 1 to 10 digits",
    ),
    (
        "synth --seed=4294967296 --modules 1",
        "value out of form: 4294967296; --seed takes a number from 0 to 4294967295, of 1 to 10 digits",
    ),
    (
        "synth --seed 7 --modules 0",
        "value out of form: 0; --modules takes a number from 1 to 100000, of 1 to 10 digits",
    ),
    (
        "build -l list -o o -t android_arm46",
        "value out of form: android_arm46; --targets takes names of targets, joined by commas, none twice; \
         nearest: android_arm64, android_arm",
    ),
    (
        "build -l list -o o -t android_arm,android_arm",
        "value out of form: android_arm,android_arm; --targets takes names of targets, joined by commas, none twice",
    ),
    (
        "graph -l list -a lnik",
        "value out of form: lnik; --after takes the name of a mutator",
    ),
    (
        "graph -l list -a inf",
        "value out of form: inf; --after takes the name of a mutator; nearest: info",
    ),
    (
        "edit -i f -o f -m app -p 1st",
        "value out of form: 1st; --property takes an identifier: a letter or _, and then letters, digits and _",
    ),
    (
        "edit -i f -o f -m app -p srcs --items a.c,,b.c",
        "value out of form: a.c,,b.c; --items takes texts joined by commas, none of them empty; \
         the first doesn't begin with -",
    ),
    ("build", "missing option: --list"),
    ("build -l list -j 4", "missing option: --out"),
    ("replay -l list -o o", "missing option: --order"),
    ("edit -o o -m a -p b", "missing option: --in"),
    (
        "build -l list -o list --journal list",
        "equal paths of --out and --list: list",
    ),
    (
        "build -l list -o x --journal x",
        "equal paths of --out and --journal: x",
    ),
    (
        "replay -l list -o o --order o",
        "equal paths of --out and --order: o",
    ),
    // The first by the word that it speaks of.
    (
        "build -j 65 foo bar -l list",
        "value out of form: 65; --jobs takes a number from 1 to 64, of 1 to 10 digits",
    ),
    ("build foo bar -j 65", "unknown option of build: foo"),
    ("build -l x -o x -l", "option given twice: -l"),
    (
        "build -o x -j 0 -l x",
        "value out of form: 0; --jobs takes a number from 1 to 64, of 1 to 10 digits",
    ),
    // Missing options before equal paths.
    ("replay -l x -o x", "missing option: --order"),
    ("build -l list -o o", "these words are accepted"),
    ("graph -l x -a info", "these words are accepted"),
    ("synth --seed 7 --modules 2", "these words are accepted"),
    ("fmt -i f -o f", "these words are accepted"),
    ("edit -i f -o f -m app -p srcs", "these words are accepted"),
    ("replay -l list -o o --order p", "these words are accepted"),
];

// The first line of which something else is said, and what.
fn wrongly_explained(
    alloc: Global,
    rows: &[(&'static str, &str)],
) -> Result<Option<(&'static str, String)>, OutOfMemory> {
    for (line, text) in rows {
        let came = explanation(alloc, words_of(alloc, line)?.as_slice())?;
        let want = format!(in alloc; "{text}\n")?;
        if came.as_str() != want.as_str() {
            return Ok(Some((*line, came)));
        }
    }
    Ok(None)
}

#[test]
fn words_and_their_first_cause(rt: HostRuntime) -> Result<(), Fail> {
    assert_eq!(rt; wrongly_explained(rt.alloc(), EXPLAINED)?, None);
    Ok(())
}

// Control characters are shown as question marks, and 80 characters of a word are shown.
#[test]
fn a_cause_takes_one_line(rt: HostRuntime) -> Result<(), Fail> {
    let alloc = rt.alloc();
    let words = vec![in alloc; Text::from_str(alloc, "a\nb\u{1b}[1m")?]?;
    assert_eq!(rt;
        explanation(alloc, words.as_slice())?.as_str(),
        "unknown command: a?b?[1m\n"
    );
    let mut long = String::new(alloc);
    for _ in 0..100 {
        long.push('x')?;
    }
    let words = vec![in alloc; Text::new(long)]?;
    let came = explanation(alloc, words.as_slice())?;
    assert_eq!(rt; came.len(), "unknown command: \n".len() + 80);
    Ok(())
}

// The first line of which a cause is told though its words give something, or none though they give nothing.
fn wrongly_refused(
    alloc: Global,
    lines: &[&'static str],
) -> Result<Option<&'static str>, OutOfMemory> {
    for line in lines {
        let words = words_of(alloc, line)?;
        if why(alloc, words.as_slice())?.is_some() == given_by(alloc, line)?.is_some() {
            return Ok(Some(*line));
        }
    }
    Ok(None)
}

#[test]
fn refused_words_have_a_cause(rt: HostRuntime) -> Result<(), Fail> {
    let alloc = rt.alloc();
    assert_eq!(rt; wrongly_refused(alloc, REFUSED)?, None);
    let mut given = Vec::new(alloc);
    for (one, other, _, _) in GIVEN {
        given.push(*one)?;
        given.push(*other)?;
    }
    assert_eq!(rt; wrongly_refused(alloc, given.as_slice())?, None);
    Ok(())
}

// Lines, and how many words they ask about.
const QUESTIONS: &[(&str, usize)] = &[
    ("", 0),
    ("help", 0),
    ("build -l list -o o", 0),
    ("--help build -l", 0),
    ("help build -l", 2),
    ("help help", 1),
    ("help --help", 1),
    ("help build", 1),
];

#[test]
fn words_that_are_asked_about(rt: HostRuntime) -> Result<(), Fail> {
    let alloc = rt.alloc();
    for (line, count) in QUESTIONS {
        let words = words_of(alloc, line)?;
        let asked = question_of(words.as_slice()).map_or(0, |asked| asked.len());
        assert!(rt; asked == *count, "{line}: {asked}");
    }
    Ok(())
}

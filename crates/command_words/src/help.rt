// The parts of the help text, handed to a macro: what bpgen is, a part for each command in the order of `COMMANDS`, and
// what holds of all commands.
macro_rules! with_parts {
    ($show:ident) => {
        $show!(
            "\
bpgen reads the Android.bp files of a source tree and writes one build.ninja. It
also lays such files out, and sets lists in them.

usage: bpgen build|replay|graph|synth|fmt|edit OPTIONS

Each command with its options, those that may be left out in brackets:
",
            "\
build: write the file for Ninja
  -l, --list LIST         the Android.bp files, one path a line
  -o, --out OUT           the file to write
 [-j, --jobs N]           workers, 1 to 64; default 4
 [-t, --targets TARGETS]  what to build for; default android_arm64,android_arm,linux_glibc_x86_64
 [    --journal PATH]     the file that gets the order of visits; default none
  bpgen build -l list -o build.ninja -j 8
",
            "\
replay: write the file for Ninja, visiting in the order of a journal
  -l, --list LIST         the Android.bp files, one path a line
  -o, --out OUT           the file to write
      --order PATH        the journal of another run
 [-t, --targets TARGETS]  what to build for; default android_arm64,android_arm,linux_glibc_x86_64
  bpgen replay -l list -o build.ninja --order journal
",
            "\
graph: print the graph of modules after a mutator
  -l, --list LIST         the Android.bp files, one path a line
  -a, --after MUTATOR     the last mutator that runs
 [-j, --jobs N]           workers, 1 to 64; default 4
 [-t, --targets TARGETS]  what to build for; default android_arm64,android_arm,linux_glibc_x86_64
  bpgen graph -l list -a deps -t android_arm64
",
            "\
synth: print a summary of the job over a synthetic tree
      --seed S            the seed, 0 to 4294967295
      --modules M         how many modules, 1 to 100000
 [-j, --jobs N]           workers, 1 to 64; default 4
  bpgen synth --seed 7 --modules 2000
",
            "\
fmt: lay an Android.bp file out anew
  -i, --in FILE           the file to read
  -o, --out OUT           the file to write
  bpgen fmt -i Android.bp -o Android.bp
",
            "\
edit: set a property of a module to a list of strings
  -i, --in FILE           the file to read
  -o, --out OUT           the file to write
  -m, --module MODULE     the name of the module
  -p, --property PROPERTY the name of the property, an identifier
 [    --items ITEMS]      the strings, joined by commas; default none
  bpgen edit -i Android.bp -o Android.bp -m app -p srcs --items a.c,b.c
",
            "\
An option is given once, as -l LIST, -lLIST, --list LIST or --list=LIST. Its
value isn't empty and doesn't begin with -. OUT differs from LIST and PATH, and
may be FILE.

TARGETS are one or more of these, joined by commas, none twice: android_arm64,
android_arm, android_x86_64, android_x86, linux_glibc_x86_64, linux_glibc_x86.

MUTATOR is one of these, which run in this order: defaults_deps, defaults, arch,
image, link, deps, plugins, per_src, sanitize, sdk, info.

Exit status: 0 done, 1 a fault of the input, 2 a wrong command line, 3 a file
can't be read, 4 a file or standard output can't be written, 5 out of memory.

bpgen --help prints this text, and bpgen --version the version. bpgen help
COMMAND, or bpgen COMMAND --help, prints the part of a command. bpgen help and
any other words prints what is wrong with these words.
"
        )
    };
}

// The parts with a blank line between them.
macro_rules! joined {
    ($first:literal $(, $part:literal)*) => {
        concat!($first $(, "\n", $part)*)
    };
}

macro_rules! listed {
    ($($part:literal),*) => {
        [$($part),*]
    };
}

/// What `--help` prints: each command with its options, and an example.
///
/// A test holds it against the table of options. `tools/words.py` makes the manual page and the completions of it.
pub const HELP: &str = with_parts!(joined);

/// The parts of `HELP`: what bpgen is, a part for each command in the order of `COMMANDS`, and what holds of all.
pub const HELP_PARTS: [&str; 8] = with_parts!(listed);

/// What `--version` prints.
pub const VERSION: &str = "bpgen 0.1.0\n";

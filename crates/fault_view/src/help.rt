/// What `--help` prints. `tools/words.py` makes the manual page and the completions of it.
pub const HELP: &str = "\
fault_view passes on the lines of standard input. Behind each fault line of bpgen
it shows the line of the file with a caret, and the nearest known names.

usage: fault_view [-l LIST]

 [-l LIST]                the files whose modules are known, one path a line; default the file of the fault
  bpgen build -l list -o build.ninja 2>&1 | fault_view -l list

It runs where bpgen runs, since the paths of faults are relative.

Exit status: 0 done, 2 wrong words, 3 standard input can't be read, 4 standard
output can't be written, 5 out of memory.

fault_view --help prints this text, and fault_view --version the version.
";

/// What `--version` prints.
pub const VERSION: &str = "fault_view 0.1.0\n";

/// What `--help` prints. `tools/words.py` makes the manual page and the completions of it.
pub const HELP: &str = "\
graph_picture reads the text that bpgen graph prints from standard input, and
writes a text for Graphviz to standard output.

usage: graph_picture [MODULE [DEPTH]]

 [MODULE]                 only what this module's variants reach and what reaches them; default all
 [DEPTH]                  to at most so many edges; default any
  bpgen graph -l list -a info | graph_picture app 2 | dot -Tsvg > app.svg

A module's name doesn't begin with -.

Exit status: 0 done, 1 a fault of the input, 2 wrong words, 3 standard input
can't be read, 4 standard output can't be written, 5 out of memory.

graph_picture --help prints this text, and graph_picture --version the version.
";

/// What `--version` prints.
pub const VERSION: &str = "graph_picture 0.1.0\n";

//! Small graphs, drawn whole and near a module, and texts that are refused.

use crate::end::End;
use crate::input::Counted;
use crate::laws::{each_edge_is_shown_once, each_module_has_one_cluster, each_variant_stands_once};
use crate::program::run;
use crate::style::{HEAD, LEGEND};
use bp_faults::{OutOfMemory, Text};
use bp_ports::MemSink;
use std::alloc::Global;
use std::test::Fail;

/// Two modules, the first of which has two variants, with an edge of each variant.
const GRAPH: &str = "0 app arm\n  static 2\n1 app x86\n  shared 2\n2 a\"b&c -\n";

/// What stands between head and legend where GRAPH is drawn.
const WHOLE: &str = "  subgraph cluster_0 {
    graph [label=\"app\", style=filled, fillcolor=\"#f0f0f0\", color=gray70];
    n0 [label=\"arm\"];
    n1 [label=\"x86\"];
  }
  subgraph cluster_1 {
    graph [label=\"a\\\"b&amp;c\", style=filled, fillcolor=\"#f0f0f0\", color=gray70];
    n2 [label=\"-\"];
  }
  n0 -> n2 [label=\"static\", color=\"#1b7837\"];
  n1 -> n2 [label=\"shared\", color=\"#2166ac\"];
";

/// A chain of three modules.
const CHAIN: &str = "0 app -\n  whole 1\n1 mid -\n  data 2\n2 low -\n";

/// What stands there where CHAIN is drawn whole, or near a module to any depth.
const ALL_OF_CHAIN: &str = "  subgraph cluster_0 {
    graph [label=\"app\", style=filled, fillcolor=\"#f0f0f0\", color=gray70];
    n0 [label=\"-\"];
  }
  subgraph cluster_1 {
    graph [label=\"mid\", style=filled, fillcolor=\"#f0f0f0\", color=gray70];
    n1 [label=\"-\"];
  }
  subgraph cluster_2 {
    graph [label=\"low\", style=filled, fillcolor=\"#f0f0f0\", color=gray70];
    n2 [label=\"-\"];
  }
  n0 -> n1 [label=\"whole\", color=\"#1b7837\", style=bold];
  n1 -> n2 [label=\"data\", color=\"#b2182b\"];
";

/// What stands there where CHAIN is drawn near its last module, to one edge.
const NEAR_LOW: &str = "  subgraph cluster_0 {
    graph [label=\"mid\", style=filled, fillcolor=\"#f0f0f0\", color=gray70];
    n1 [label=\"-\"];
  }
  subgraph cluster_1 {
    graph [label=\"low\", style=filled, fillcolor=\"#f0f0f0\", color=gray70];
    n2 [label=\"-\"];
  }
  n1 -> n2 [label=\"data\", color=\"#b2182b\"];
";

/// Texts that aren't those of a graph, with the number of the bad line.
const REFUSED: [(&str, u64); 8] = [
    ("\n", 1),
    ("0 app -", 1),
    ("1 app -\n", 1),
    ("  static 0\n", 1),
    ("0 app -\n  static 1\n", 2),
    ("0 app -\n  static 00\n", 2),
    ("0 app -\n0 low -\n", 2),
    ("0 app -\n  static 1\n1 low -\n  wrong 0\n", 4),
];

/// How the program ends, and the bytes that it writes. Spaces part the words.
fn ends(alloc: Global, words: &str, text: &str) -> Result<(End, MemSink), OutOfMemory> {
    let mut asked = Vec::new(alloc);
    for word in words.split(' ') {
        if !word.is_empty() {
            asked.push(Text::from_str(alloc, word)?)?;
        }
    }
    let mut out = MemSink::new(alloc, 65_536, Vec::new(alloc))?;
    let end = run(alloc, &asked, &mut Counted::new(text.as_bytes()), &mut out);
    Ok((end, out))
}

/// The bytes of a sink as a text.
fn told(sink: &MemSink) -> &str {
    str::from_utf8(sink.bytes()).unwrap_or("no text")
}

#[test]
fn small_graphs(rt: HostRuntime) -> Result<(), Fail> {
    let alloc = rt.alloc();
    let cases = [
        ("", "", ""),
        ("", GRAPH, WHOLE),
        ("low 1", CHAIN, NEAR_LOW),
        ("low", CHAIN, ALL_OF_CHAIN),
    ];
    for (words, text, want) in cases {
        let (end, out) = ends(alloc, words, text)?;
        let picture = format!(in alloc; "{HEAD}{want}{LEGEND}")?;
        let (came, status) = (told(&out), end.status());
        assert!(rt;
            status == 0 && came == picture.as_str(),
            "{words}: {text}: {status}: {came}"
        );
    }
    each_variant_stands_once();
    each_module_has_one_cluster();
    each_edge_is_shown_once();
    Ok(())
}

#[test]
fn refused(rt: HostRuntime) -> Result<(), Fail> {
    let alloc = rt.alloc();
    for (text, line) in REFUSED {
        let (end, out) = ends(alloc, "", text)?;
        let want = format!(in alloc; "graph_picture: bad line {line}\n")?;
        let mut diag = MemSink::new(alloc, 65_536, Vec::new(alloc))?;
        let status = end.report(&mut diag);
        let came = told(&diag);
        let drew = told(&out);
        assert!(rt;
            status == 1 && drew.is_empty() && came == want.as_str(),
            "{text}: {status}: {came}: {drew}"
        );
    }
    Ok(())
}

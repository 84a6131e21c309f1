ghost use Rattle.std.specs.Prelude.{◌≡◌};
ghost use Rattle.graph_picture.specs.Drawing.{style_of};

use module_graph::EdgeKind;

/// What a picture begins with.
pub const HEAD: &str = "\
digraph modules {
  graph [rankdir=LR, nodesep=0.15, fontname=\"Helvetica\", fontsize=13];
  node [shape=box, style=\"rounded,filled\", fillcolor=white, height=0.3, fontname=\"Helvetica\", fontsize=11];
  edge [arrowsize=0.7, fontname=\"Helvetica\", fontsize=9];
";

/// What stands behind the name of a cluster.
pub const FRAME: &str = ", style=filled, fillcolor=\"#f0f0f0\", color=gray70];\n";

/// The legend, which ends a picture: a line for each kind, drawn as `style_of` says.
pub const LEGEND: &str = "  subgraph cluster_legend {
    graph [label=\"box: a variant; frame: its module; arrow: what it needs\", fontsize=10, style=dashed];
    node [shape=plaintext, style=\"\", fontsize=10, height=0.2];
    defaults_from [label=\"\"]; defaults_from -> \"defaults\" [color=\"gray50\", style=dashed];
    whole_from [label=\"\"]; whole_from -> \"whole\" [color=\"#1b7837\", style=bold];
    static_from [label=\"\"]; static_from -> \"static\" [color=\"#1b7837\"];
    shared_from [label=\"\"]; shared_from -> \"shared\" [color=\"#2166ac\"];
    header_from [label=\"\"]; header_from -> \"header\" [color=\"#2166ac\", style=dotted];
    data_from [label=\"\"]; data_from -> \"data\" [color=\"#b2182b\"];
    sources_from [label=\"\"]; sources_from -> \"sources\" [color=\"#b2182b\", style=dashed];
  }
}
";

/// How an edge of a kind is drawn.
pub fn style_of(kind: EdgeKind) -> &'static str
    ensures { result.now ≡ style_of kind }
{
    match kind {
        EdgeKind::Defaults => "color=\"gray50\", style=dashed",
        EdgeKind::Whole => "color=\"#1b7837\", style=bold",
        EdgeKind::Static => "color=\"#1b7837\"",
        EdgeKind::Shared => "color=\"#2166ac\"",
        EdgeKind::Header => "color=\"#2166ac\", style=dotted",
        EdgeKind::DataBin => "color=\"#b2182b\"",
        EdgeKind::Sources => "color=\"#b2182b\", style=dashed",
    }
}

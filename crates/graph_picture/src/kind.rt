ghost use Rattle.std.specs.Prelude.{◌≡◌};
ghost use Rattle.graph_nodes.specs.GraphText.{kind_word};
ghost use Rattle.graph_picture.specs.Inside.{IsKind};

use module_graph::EdgeKind;

/// How a kind is spelled.
pub fn word_of(kind: EdgeKind) -> &'static str
    ensures { result.now ≡ kind_word kind }
{
    match kind {
        EdgeKind::Defaults => "defaults",
        EdgeKind::Whole => "whole",
        EdgeKind::Static => "static",
        EdgeKind::Shared => "shared",
        EdgeKind::Header => "header",
        EdgeKind::DataBin => "data",
        EdgeKind::Sources => "sources",
    }
}

/// The kind that is spelled so.
pub fn kind_of(word: &str) -> Option<EdgeKind>
    ensures { IsKind word.now result }
{
    match word {
        "defaults" => Some(EdgeKind::Defaults),
        "whole" => Some(EdgeKind::Whole),
        "static" => Some(EdgeKind::Static),
        "shared" => Some(EdgeKind::Shared),
        "header" => Some(EdgeKind::Header),
        "data" => Some(EdgeKind::DataBin),
        "sources" => Some(EdgeKind::Sources),
        _ => None,
    }
}

ghost use Rattle.std.specs.Prelude.{◌≡◌, ◌<◌, ◌^◌, ◌++◌, ◌∷◌, [], map, length, slice_get, IfOk, OnOk};
ghost use Rattle.std.specs.Fmt.{decimal};
ghost use Rattle.std.specs.List.{filter, flat_map};
ghost use Rattle.graph_picture.specs.Drawing.{arrow_drawn, box_drawn, cluster_drawn, picture_of};
ghost use Rattle.graph_picture.specs.Drawing.{escaped_byte_text, is_inside, marked_numbers};
ghost use Rattle.graph_picture.specs.Drawing.{name_in_quotes, shown_arrows, variation_of};
ghost use Rattle.graph_picture.specs.Reach.{mark_at};
ghost use Rattle.graph_nodes.specs.Numbered.{by_number};

use crate::clusters::{Cluster, clusters_of, module_at};
use crate::kind::word_of;
use crate::style::{FRAME, HEAD, LEGEND, style_of};
use crate::{Arrow, Variant};
use bp_faults::OutOfMemory;
use std::alloc::Global;

fn put(text: &mut Vec<u8>, more: &str) -> Result<(), OutOfMemory>
    ensures { OnOk result (text.new.items ≡ text.old.items ++ more.now) }
{
    text.extend_from_slice(more.as_bytes())?;
    Ok(())
}

fn put_escaped(text: &mut Vec<u8>, byte: u8) -> Result<(), OutOfMemory>
    ensures { OnOk result (text.new.items ≡ text.old.items ++ escaped_byte_text byte) }
{
    match byte {
        b'"' => put(text, "\\\""),
        b'\\' => put(text, "\\\\"),
        b'&' => put(text, "&amp;"),
        _ => {
            text.push(byte)?;
            Ok(())
        }
    }
}

#[tactic(auto, unfolding(crate::specs::Drawing::name_in_quotes))]
fn put_quoted(text: &mut Vec<u8>, name: &str) -> Result<(), OutOfMemory>
    ensures { OnOk result (text.new.items ≡ text.old.items ++ name_in_quotes name.now) }
{
    put(text, "\"")?;
    for byte in name.as_bytes() {
        put_escaped(text, *byte)?;
    }
    put(text, "\"")
}

/// A variant's own name, and the empty one beyond the variants.
fn variation_at(variants: &[Variant], n: u32) -> &str
    ensures { result.now ≡ variation_of (slice_get variants.now n) }
{
    match variants.get(n as usize) {
        Some(variant) => variant.variation.as_str(),
        None => "",
    }
}

/// Adds the line of a variant.
#[tactic(auto, unfolding(crate::specs::Drawing::box_drawn))]
fn put_box(
    alloc: Global,
    text: &mut Vec<u8>,
    variants: &[Variant],
    n: u32,
) -> Result<(), OutOfMemory>
    ensures { OnOk result (text.new.items ≡ text.old.items ++ box_drawn variants.now n) }
{
    let head = format!(in alloc; "    n{n} [label=")?;
    put(text, head.as_str())?;
    put_quoted(text, variation_at(variants, n))?;
    put(text, "];\n")
}

/// Adds the lines of some variants.
fn put_boxes(
    alloc: Global,
    text: &mut Vec<u8>,
    variants: &[Variant],
    numbers: &[u32],
) -> Result<(), OutOfMemory>
    ensures { OnOk result (text.new.items ≡ text.old.items ++ flat_map (box_drawn variants.now) numbers.now) }
{
    for n in numbers {
        put_box(alloc, text, variants, *n)?;
    }
    Ok(())
}

/// Adds the lines of a cluster.
#[tactic(auto, unfolding(crate::specs::Drawing::cluster_drawn))]
fn put_cluster(
    alloc: Global,
    text: &mut Vec<u8>,
    variants: &[Variant],
    m: usize,
    cluster: &Cluster,
) -> Result<(), OutOfMemory>
    ensures { OnOk result (text.new.items ≡ text.old.items ++ cluster_drawn variants.now m cluster.now) }
{
    let head = format!(in alloc; "  subgraph cluster_{m} {{\n    graph [label=")?;
    put(text, head.as_str())?;
    put_quoted(text, module_at(variants, cluster.first))?;
    put(text, FRAME)?;
    put_box(alloc, text, variants, cluster.first)?;
    put_boxes(alloc, text, variants, cluster.others.as_slice())?;
    put(text, "  }\n")
}

/// Adds the lines of some clusters.
fn put_clusters(
    alloc: Global,
    text: &mut Vec<u8>,
    variants: &[Variant],
    clusters: &[Cluster],
) -> Result<(), OutOfMemory>
    ensures { OnOk result (text.new.items ≡ text.old.items ++ by_number (cluster_drawn variants.now) 0 clusters.now) }
{
    for (m, cluster) in clusters.iter().enumerate() {
        put_cluster(alloc, text, variants, m, cluster)?;
    }
    Ok(())
}

fn is_marked(marks: &[bool], n: usize) -> bool
    ensures { result ≡ mark_at marks.now n }
{
    match marks.get(n) {
        Some(mark) => *mark,
        None => false,
    }
}

/// Adds the line of an edge of variant n, where both its ends are marked.
#[tactic(auto, unfolding(crate::specs::Drawing::arrow_drawn))]
fn put_arrow(
    alloc: Global,
    text: &mut Vec<u8>,
    marks: &[bool],
    n: usize,
    arrow: &Arrow,
) -> Result<(), OutOfMemory>
    ensures { OnOk result (text.new.items
        ≡ text.old.items ++ flat_map arrow_drawn (filter (is_inside marks.now) ((n, arrow.now) ∷ []))) }
{
    let to = arrow.to;
    if !is_marked(marks, n) || !is_marked(marks, to as usize) {
        return Ok(());
    }
    let word = word_of(arrow.kind);
    let style = style_of(arrow.kind);
    let line = format!(in alloc; "  n{n} -> n{to} [label=\"{word}\", {style}];\n")?;
    put(text, line.as_str())
}

/// Adds the lines of the edges of variant n.
fn put_arrows(
    alloc: Global,
    text: &mut Vec<u8>,
    marks: &[bool],
    n: usize,
    edges: &[Arrow],
) -> Result<(), OutOfMemory>
    ensures { OnOk result (text.new.items
        ≡ text.old.items ++ flat_map arrow_drawn (filter (is_inside marks.now) (map (λ a. (n, a)) edges.now))) }
{
    for arrow in edges {
        put_arrow(alloc, text, marks, n, arrow)?;
    }
    Ok(())
}

/// Adds the lines of all edges.
fn put_all_arrows(
    alloc: Global,
    text: &mut Vec<u8>,
    variants: &[Variant],
    marks: &[bool],
) -> Result<(), OutOfMemory>
    ensures { OnOk result
        (text.new.items ≡ text.old.items ++ flat_map arrow_drawn (shown_arrows variants.now marks.now)) }
{
    for (n, variant) in variants.iter().enumerate() {
        put_arrows(alloc, text, marks, n, variant.edges.as_slice())?;
    }
    Ok(())
}

/// The numbers that are marked.
fn marked(alloc: Global, marks: &[bool]) -> Result<Vec<u32>, OutOfMemory>
    requires { length marks.now < 2 ^ 32 }
    ensures { IfOk result (λ numbers. numbers.items ≡ marked_numbers marks.now) }
{
    let mut numbers = Vec::new(alloc);
    for (n, mark) in marks.iter().enumerate() {
        if *mark {
            numbers.push(n as u32)?;
        }
    }
    Ok(numbers)
}

/// The picture of the marked variants and of the edges between them.
#[tactic(auto, unfolding(crate::specs::Drawing::picture_of))]
pub fn drawn(alloc: Global, variants: &[Variant], marks: &[bool]) -> Result<Vec<u8>, OutOfMemory>
    requires { length marks.now < 2 ^ 32 }
    ensures { IfOk result (λ text. text.items ≡ picture_of variants.now marks.now) }
{
    let numbers = marked(alloc, marks)?;
    let clusters = clusters_of(alloc, variants, &numbers)?;
    let mut text = Vec::new(alloc);
    put(&mut text, HEAD)?;
    put_clusters(alloc, &mut text, variants, &clusters)?;
    put_all_arrows(alloc, &mut text, variants, marks)?;
    put(&mut text, LEGEND)?;
    Ok(text)
}

//! The modules and the graph of rows.
use crate::rows::{Flags, Has, Row};
use bp_faults::{Item, ModuleId, NodeId, OutOfMemory, Path, Place, Seq, Target, Text};
use bp_props::{GroupProps, Listed, Module, Props, Source};
use module_graph::{Axis, Edge, EdgeKind, Graph, Node, Variation, Variations};
use module_rules::{Record, with_records};
use std::alloc::Global;

fn place(line: u32) -> Place {
    Place {
        file: 1,
        line,
        col: 1,
    }
}

/// A path, or with `:` before it a name.
fn source(alloc: Global, word: &str, line: u32) -> Result<Source, OutOfMemory> {
    let (named, text) = match word.strip_prefix(":") {
        Some(name) => (true, name),
        None => (false, word),
    };
    let text = Text::from_str(alloc, text)?;
    let at = place(line);
    Ok(Source {
        named,
        item: Item { text, at },
    })
}

fn add_sources(alloc: Global, props: &mut Props, words: &[&str]) -> Result<(), OutOfMemory> {
    let mut line = 0u32;
    for word in words {
        line = line.wrapping_add(1);
        props.base.srcs.push(alloc, source(alloc, word, line)?)?;
    }
    Ok(())
}

fn list(base: &mut GroupProps, flags: Flags) -> &mut Listed<Text> {
    match flags {
        Flags::Every => &mut base.cflags,
        Flags::C => &mut base.conlyflags,
        Flags::Cpp => &mut base.cppflags,
        Flags::Asm => &mut base.asflags,
        Flags::Link => &mut base.ldflags,
    }
}

fn add_include(alloc: Global, props: &mut Props, directory: &str) -> Result<(), OutOfMemory> {
    match Path::new(Text::from_str(alloc, directory)?) {
        Some(path) => props.includes.push(path),
        None => Ok(()),
    }
}

fn give(alloc: Global, node: &mut Node<Props>, has: Has) -> Result<(), OutOfMemory> {
    match has {
        Has::Variation(axis, variation) => node.vars.set(axis, variation),
        Has::Flag(flags, flag) => {
            list(&mut node.payload.base, flags).push(alloc, Text::from_str(alloc, flag)?)?;
        }
        Has::Include(directory) => add_include(alloc, &mut node.payload, directory)?,
        Has::Level(level) => node.payload.level = level,
        Has::Line(n) => node.payload.line.push(NodeId(n))?,
        Has::Slib(n) => node.payload.slibs.push(NodeId(n))?,
    }
    Ok(())
}

/// A node of a module, for a device, without sources and edges.
fn bare(alloc: Global, module: u32) -> Node<Props> {
    let mut vars = Variations::empty(alloc);
    vars.set(Axis::Target, Variation::Target(Target::AndroidArm64));
    Node {
        module: ModuleId(module),
        vars,
        payload: Props::empty(alloc),
        edges: Seq::new(Vec::new(alloc)),
    }
}

fn add_edges(node: &mut Node<Props>, edges: &[(EdgeKind, u32)]) -> Result<(), OutOfMemory> {
    for (kind, to) in edges {
        node.edges.push(Edge {
            kind: *kind,
            to: NodeId(*to),
            at: place(1),
        })?;
    }
    Ok(())
}

fn node(alloc: Global, module: u32, row: &Row) -> Result<Node<Props>, OutOfMemory> {
    let (_, _, sources, edges, has, _) = *row;
    let mut node = bare(alloc, module);
    add_sources(alloc, &mut node.payload, sources)?;
    add_edges(&mut node, edges)?;
    for what in has {
        give(alloc, &mut node, *what)?;
    }
    Ok(node)
}

fn module(alloc: Global, row: &Row) -> Result<Module, OutOfMemory> {
    let (name, kind, ..) = *row;
    Ok(Module {
        name: Text::from_str(alloc, name)?,
        kind,
        dir: Path::root(alloc),
        at: place(1),
        props: Props::empty(alloc),
    })
}

pub fn modules_of(alloc: Global, rows: &[Row]) -> Result<Vec<Module>, OutOfMemory> {
    let mut modules = Vec::new(alloc);
    for row in rows {
        modules.push(module(alloc, row)?)?;
    }
    Ok(modules)
}

pub fn graph_of<'m>(alloc: Global, rows: &[Row]) -> Result<Graph<Record<'m>>, OutOfMemory> {
    let mut nodes = Vec::new(alloc);
    let mut number = 0u32;
    for row in rows {
        nodes.push(node(alloc, number, row)?)?;
        number = number.wrapping_add(1);
    }
    let nodes = Seq::new(nodes);
    with_records(alloc, Graph { nodes })
}

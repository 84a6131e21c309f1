//! The statements of worked examples, and which fault of a source comes first.
ghost use Rattle.std.specs.Prelude.{◌≡◌, [], length, IfOk};
ghost use Rattle.graph_nodes.specs.Nodes.{targets};

use crate::nodes::{graph_of, modules_of};
use crate::plain_text::{add_statement, text_of};
use crate::rows::{ROWS, Row};
use bp_faults::{ModuleId, NodeId, OutOfMemory, Seq, fault_line};
use bp_props::{Module, Props};
use build_actions::{ActionVisit, Actions, build_file, laws};
use module_graph::{Graph, Node, Variations};
use module_rules::Record;
use ninja_file::{NinjaFile, is_well_formed};
use pass_core::{Visit, VisitError};
use std::alloc::Global;
use std::process::Abort;
use std::sync::Arc;
use std::test::Fail;

/// What was made at the targets of a node's edges.
fn below(
    alloc: Global,
    node: &Node<Record<'_>>,
    made: &[Arc<Actions>],
) -> Result<Vec<Arc<Actions>>, OutOfMemory> {
    let mut ins = Vec::new(alloc);
    for edge in node.edges.as_slice() {
        if let Some(actions) = made.get(edge.to.0 as usize) {
            ins.push(actions.clone()?)?;
        }
    }
    Ok(ins)
}

/// A visit of a node, given as much as it has edges. Memory is said to be out where it isn't as much.
fn visited(
    alloc: Global,
    modules: &[Module],
    graph: &Graph<Record<'_>>,
    n: u32,
    ins: &[Arc<Actions>],
) -> Result<Actions, VisitError> {
    let Some(node) = graph.nodes.as_slice().get(n as usize) else {
        return Err(VisitError::OutOfMemory);
    };
    if node.edges.as_slice().len() != ins.len() {
        return Err(VisitError::OutOfMemory);
    }
    ActionVisit::new(modules, graph).visit(alloc, NodeId(n), ins)
}

/// Nothing is made.
fn nothing(alloc: Global) -> Actions {
    Actions {
        statements: Seq::new(Vec::new(alloc)),
        objects: Seq::new(Vec::new(alloc)),
        output: None,
        files: Seq::new(Vec::new(alloc)),
    }
}

/// What is made at a node, with its text: statements, or the line of the fault.
fn said(
    alloc: Global,
    modules: &[Module],
    graph: &Graph<Record<'_>>,
    n: u32,
    ins: &[Arc<Actions>],
) -> Result<(Actions, String), OutOfMemory> {
    match visited(alloc, modules, graph, n, ins) {
        Ok(actions) => {
            let text = text_of(alloc, actions.statements.as_slice())?;
            Ok((actions, text))
        }
        Err(VisitError::Bad(fault)) => Ok((nothing(alloc), fault_line(alloc, &fault, &[])?)),
        Err(VisitError::OutOfMemory) => Err(OutOfMemory),
    }
}

/// What is made at the node of a row, put behind what is made already. Its text is as wanted, where it is compared.
fn make(
    rt: &impl Abort,
    alloc: Global,
    modules: &[Module],
    graph: &Graph<Record<'_>>,
    row: &Row,
    made: &mut Vec<Arc<Actions>>,
) -> Result<(), OutOfMemory> {
    let index = made.len();
    let (Some(node), Ok(n)) = (graph.nodes.as_slice().get(index), u32::try_from(index)) else {
        return Err(OutOfMemory);
    };
    let ins = below(alloc, node, made)?;
    let (actions, text) = said(alloc, modules, graph, n, &ins)?;
    check_text(rt, row, text.as_str());
    made.push(Arc::new(alloc, actions)?)?;
    Ok(())
}

/// What is made of each row in turn.
fn made_of(rt: &impl Abort, alloc: Global, rows: &[Row]) -> Result<Vec<Arc<Actions>>, OutOfMemory> {
    let modules = modules_of(alloc, rows)?;
    let graph = graph_of(alloc, rows)?;
    let mut made = Vec::new(alloc);
    for row in rows {
        make(rt, alloc, &modules, &graph, row, &mut made)?;
    }
    Ok(made)
}

fn check_text(rt: &impl Abort, row: &Row, text: &str) {
    if let Some(want) = row.5 {
        assert_eq!(rt; text, want, "{} of {:?}", row.0, row.2);
    }
}

fn file_of(rt: &impl Abort, alloc: Global, rows: &[Row]) -> Result<NinjaFile, OutOfMemory> {
    build_file(alloc, made_of(rt, alloc, rows)?)
}

fn last_statement(alloc: Global, file: &NinjaFile) -> Result<String, OutOfMemory> {
    let mut last = String::new(alloc);
    for statement in file.statements.as_slice().last() {
        add_statement(&mut last, statement)?;
    }
    Ok(last)
}

fn check_rows(rt: &impl Abort, alloc: Global, rows: &[Row], last: &str) -> Result<(), Fail> {
    let file = file_of(rt, alloc, rows)?;
    assert!(rt; is_well_formed(alloc, &file)?);
    let statement = last_statement(alloc, &file)?;
    assert!(rt; statement.as_str().starts_with(last), "{statement}");
    assert_eq!(rt; file.rules.as_slice().len(), 6);
    Ok(())
}

#[test]
fn statements_of_worked_examples(rt: HostRuntime) -> Result<(), Fail> {
    let last =
        "build out/all: phony out/m/liblog/android_arm64_shared/bin/liblog.so out/m/libdemo/";
    check_rows(&rt, rt.alloc(), &ROWS, last)
}

fn one_node<'m>(alloc: Global) -> Result<Graph<Record<'m>>, OutOfMemory>
    ensures count { IfOk result (λ g. length g.nodes ≡ 1) }
    ensures targets { IfOk result (λ g. targets g.nodes 0 ≡ []) }
{
    let mut nodes = Vec::new(alloc);
    nodes.push(Node {
        module: ModuleId(0),
        vars: Variations::empty(alloc),
        payload: Record::new(alloc, Props::empty(alloc))?,
        edges: Seq::new(Vec::new(alloc)),
    })?;
    let nodes = Seq::new(nodes);
    Ok(Graph { nodes })
}

#[test]
fn a_visit_of_one_node(rt: HostRuntime) -> Result<(), Fail> {
    let alloc = rt.alloc();
    let graph = one_node(alloc)?;
    let visit = ActionVisit::new(&[], &graph);
    let made = visit.visit(alloc, NodeId(0), &[])?;
    assert!(rt; made.output.is_none());
    laws::no_output_twice();
    laws::names_tell_variations();
    laws::passes_make();
    Ok(())
}

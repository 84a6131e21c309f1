ghost use Rattle.std.specs.Prelude.{◌≡◌, IfOk, map};
ghost use Rattle.std.specs.Arc.{arc_value};
ghost use Rattle.bp_faults.specs.Answers.{Answers};
ghost use Rattle.build_actions.specs.Acts.{files_alone, made_of, acts_by, acts};

use crate::Actions;
use crate::compile::{compile_all, compiler_of};
use crate::files::files_of;
use crate::product::{objects_over, product_step, whole_of};
use bp_faults::{Item, OutOfMemory, Seq};
use bp_props::Module;
use build_parts::{Role, check_sources, output_in, role_of};
use module_graph::{Graph, Node};
use module_rules::Record;
use pass_core::VisitError;
use std::alloc::Global;
use std::sync::Arc;

/// Nothing is made.
pub fn idle(alloc: Global, files: Vec<Item>) -> Actions
    ensures { result ≡ files_alone files.items }
{
    Actions {
        statements: Seq::new(Vec::new(alloc)),
        objects: Seq::new(Vec::new(alloc)),
        output: None,
        files: Seq::new(files),
    }
}

// What is done at a node that makes something of some files.
fn make(
    alloc: Global,
    modules: &[Module],
    graph: &Graph<Record<'_>>,
    module: &Module,
    node: &Node<Record<'_>>,
    ins: &[Arc<Actions>],
    files: Vec<Item>,
) -> Result<Actions, OutOfMemory>
    ensures { IfOk result (λ made. made ≡ made_of modules.now graph.now.nodes «module».now node.now
        (map arc_value ins.now) files.items) }
{
    let list = files.as_slice();
    let compiler = compiler_of(alloc, module, node, list)?;
    let output = output_in(alloc, &compiler.directory, module, node)?;
    let mut statements = compile_all(alloc, compiler, list)?;
    let whole = whole_of(alloc, node.edges.as_slice(), ins)?;
    let objects = objects_over(alloc, statements.as_slice(), whole.as_slice())?;
    let product = product_step(alloc, modules, graph, node, &output, objects.as_slice())?;
    statements.push(product)?;
    Ok(Actions {
        statements: Seq::new(statements),
        objects: Seq::new(objects),
        output: Some(output),
        files: Seq::new(files),
    })
}

/// What is done at a node of a module, given what was made at its edges' targets.
pub fn act(
    alloc: Global,
    modules: &[Module],
    graph: &Graph<Record<'_>>,
    module: &Module,
    node: &Node<Record<'_>>,
    ins: &[Arc<Actions>],
) -> Result<Actions, VisitError>
    ensures { Answers (λ made. made) result
        (acts modules.now graph.now.nodes «module».now node.now (map arc_value ins.now)) }
{
    match role_of(module.kind) {
        Role::Neither => Ok(idle(alloc, Vec::new(alloc))),
        Role::Gives => Ok(idle(alloc, files_of(alloc, modules, graph, node, ins)?)),
        Role::Makes => {
            let files = files_of(alloc, modules, graph, node, ins)?;
            check_sources(alloc, files.as_slice())?;
            Ok(make(alloc, modules, graph, module, node, ins, files)?)
        }
    }
}

ghost use Rattle.std.specs.Prelude.{◌≡◌, ◌++◌, IfOk, OnOk, map};
ghost use Rattle.std.specs.Arc.{arc_value};
ghost use Rattle.std.specs.List.{flat_map};
ghost use Rattle.build_actions.specs.declared.actions.Actions.{Actions};
ghost use Rattle.build_actions.specs.File.{outputs_of, all_statements, file_of_actions};
ghost use Rattle.build_actions.specs.Inside.{step_of_all};

use crate::Actions;
use bp_faults::{OutOfMemory, Seq, Text, copy_all};
use build_parts::{head_rules, one, push_some};
use ninja_file::{NinjaFile, Statement};
use std::alloc::Global;
use std::sync::Arc;

fn copy_output(alloc: Global, output: &Option<Text>) -> Result<Option<Text>, OutOfMemory>
    ensures { IfOk result (λ copy. copy ≡ output.now) }
{
    match output {
        Some(path) => Ok(Some(path.copy(alloc)?)),
        None => Ok(None),
    }
}

// The statements of a node and what it makes are taken over. They are copied only where something else holds them too.
fn take(alloc: Global, made: Arc<Actions>) -> Result<(Vec<Statement>, Option<Text>), OutOfMemory>
    ensures statements { IfOk result (λ taken. taken.0.items ≡ (arc_value made).statements) }
    ensures output { IfOk result (λ taken. taken.1 ≡ (arc_value made).output) }
{
    match Arc::try_unwrap(made) {
        Ok(actions) => Ok((actions.statements.into_vec(), actions.output)),
        Err(shared) => {
            let statements = copy_all(alloc, shared.statements.as_slice())?;
            Ok((statements, copy_output(alloc, &shared.output)?))
        }
    }
}

fn append(statements: &mut Vec<Statement>, mut more: Vec<Statement>) -> Result<(), OutOfMemory>
    ensures { OnOk result (statements.new.items ≡ statements.old.items ++ more.items) }
{
    statements.append(&mut more)?;
    Ok(())
}

// How many statements there are. A count beyond any memory stays where it is.
fn count_all(made: &[Arc<Actions>]) -> usize {
    let mut count = 0usize;
    for node in made {
        count = count.saturating_add(node.statements.as_slice().len());
    }
    count
}

// The statements of the nodes, with room for one more, and what the nodes make, in node order.
fn join_all(
    alloc: Global,
    made: Vec<Arc<Actions>>,
) -> Result<(Vec<Statement>, Vec<Text>), OutOfMemory>
    ensures statements { IfOk result (λ joined. joined.0.items
        ≡ flat_map (λ (node : Actions). node.statements) (map arc_value made.items)) }
    ensures outputs { IfOk result (λ joined. joined.1.items ≡ outputs_of (map arc_value made.items)) }
{
    let mut statements = Vec::with_capacity(alloc, count_all(made.as_slice()).saturating_add(1))?;
    let mut outputs = Vec::with_capacity(alloc, made.len())?;
    for node in made {
        let (more, output) = take(alloc, node)?;
        append(&mut statements, more)?;
        push_some(&mut outputs, output)?;
    }
    Ok((statements, outputs))
}

// All outputs have one name.
fn all_step(alloc: Global, outputs: Vec<Text>) -> Result<Statement, OutOfMemory>
    ensures { IfOk result (λ statement. statement ≡ step_of_all outputs.items) }
{
    Ok(Statement {
        outs: one(alloc, Text::from_str(alloc, "out/all")?)?,
        rule: Text::from_str(alloc, "phony")?,
        ins: Seq::new(outputs),
        implicit: Seq::new(Vec::new(alloc)),
        order_only: Seq::new(Vec::new(alloc)),
        vars: Seq::new(Vec::new(alloc)),
    })
}

fn all_statements(alloc: Global, made: Vec<Arc<Actions>>) -> Result<Vec<Statement>, OutOfMemory>
    ensures { IfOk result (λ statements. statements.items ≡ all_statements (map arc_value made.items)) }
{
    let (mut statements, outputs) = join_all(alloc, made)?;
    statements.push(all_step(alloc, outputs)?)?;
    Ok(statements)
}

/// The file of what was made at all nodes, by node number.
pub fn build_file(alloc: Global, made: Vec<Arc<Actions>>) -> Result<NinjaFile, OutOfMemory>
    ensures { IfOk result (λ file. file ≡ file_of_actions (map arc_value made.items)) }
{
    Ok(NinjaFile {
        rules: Seq::new(head_rules(alloc)?),
        statements: Seq::new(all_statements(alloc, made)?),
        defaults: one(alloc, Text::from_str(alloc, "out/all")?)?,
    })
}

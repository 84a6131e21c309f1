//! What statements weigh: how many paths and variables are printed for them. None of these is looked at.
ghost use Rattle.std.specs.Prelude.{◌<◌};

use ninja_file::Statement;
use std::alloc::{AllocError, Global};
use std::thread::{Threads, map_chunks};

/// How many statements are weighed together.
pub const GROUP: usize = 64;

/// A thread weighs at least so many statements, in about half a millisecond.
const LEAST: usize = 1 << 15;

fn weight_of(statement: &Statement) -> usize {
    statement
        .outs
        .as_slice()
        .len()
        .saturating_add(statement.ins.as_slice().len())
        .saturating_add(statement.implicit.as_slice().len())
        .saturating_add(statement.order_only.as_slice().len())
        .saturating_add(statement.vars.as_slice().len())
}

fn group_weight(statements: &[Statement]) -> usize {
    let mut weight = 0usize;
    for statement in statements {
        weight = weight.saturating_add(weight_of(statement));
    }
    weight
}

fn group_weights(alloc: Global, statements: &[Statement]) -> Result<Vec<usize>, AllocError> {
    let mut weights = Vec::new(alloc);
    for group in statements.chunks(GROUP) {
        weights.push(group_weight(group))?;
    }
    Ok(weights)
}

/// The weights of the groups of statements, in order, by some workers where there are many.
pub fn weights<R: Threads + Sync>(
    rt: &R,
    alloc: Global,
    statements: &[Statement],
    workers: u32,
) -> Result<Vec<usize>, AllocError>
    requires { 0 < workers }
{
    let groups = statements.len() / GROUP / workers as usize + 1;
    let size = groups.saturating_mul(GROUP).max(LEAST);
    let parts = map_chunks(
        rt,
        alloc,
        statements,
        size,
        &|_, part: &[Statement]| { group_weights(alloc, part) },
    )?;
    let mut all = Vec::new(alloc);
    for part in parts {
        all.append(&mut part?)?;
    }
    Ok(all)
}

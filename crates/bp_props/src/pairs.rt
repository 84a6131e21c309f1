//! Ascending pairs of a group's id and its properties, and where an id is.
ghost use Rattle.std.specs.Prelude.{◌≡◌, IfOk, OnOk, OnErr, ◌≤◌, length};
ghost use Rattle.std.specs.List.{insert};
ghost use Rattle.bp_props.specs.Groups.{Ascends};
ghost use Rattle.bp_props.specs.Inside.{index_of};

use crate::{GroupId, GroupProps};
use bp_faults::{OutOfMemory, Payload};
use std::alloc::Global;

/// The index of the pair of an id, or the index at which a pair of this id goes.
pub(crate) fn index_of_id(pairs: &[(GroupId, GroupProps)], id: GroupId) -> Result<usize, usize>
    requires { Ascends pairs.now }
    ensures { result ≡ index_of pairs.now id }
{
    pairs.binary_search_by(|pair| pair.0.cmp(&id))
}

/// A copy of each pair.
pub(crate) fn copy_pairs(
    alloc: Global,
    pairs: &[(GroupId, GroupProps)],
) -> Result<Vec<(GroupId, GroupProps)>, OutOfMemory>
    ensures { IfOk result (λ copies. copies.items ≡ pairs.now) }
{
    let mut copies = Vec::with_capacity(alloc, pairs.len())?;
    for pair in pairs {
        copies.push((pair.0, pair.1.copy(alloc)?))?;
    }
    Ok(copies)
}

/// Puts a pair at an index. It takes the room of one pair.
pub(crate) fn insert_at(
    pairs: &mut Vec<(GroupId, GroupProps)>,
    index: usize,
    pair: (GroupId, GroupProps),
) -> Result<(), OutOfMemory>
    requires { index ≤ length pairs.old.items }
    ensures ok { OnOk result (pairs.new.items ≡ insert pairs.old.items index pair) }
    ensures err { OnErr result (pairs.new.items ≡ pairs.old.items) }
{
    pairs.reserve_exact(1)?;
    pairs.insert(index, pair)?;
    Ok(())
}

ghost use Rattle.std.specs.Prelude.{◌≡◌, IfOk};
ghost use Rattle.target_mutators.specs.Groups.{with_groups};

use bp_faults::{OutOfMemory, Payload};
use bp_props::GroupId;
use module_rules::{Record, append_group};
use std::alloc::Global;

/// A record with some of its own groups appended, in order. `own` has the same groups.
pub fn append_groups<'m>(
    alloc: Global,
    made: Record<'m>,
    own: &Record<'_>,
    ids: &[GroupId],
) -> Result<Record<'m>, OutOfMemory>
    requires { made.groups ≡ own.now.groups }
    ensures appended { IfOk result (λ new. new ≡ with_groups made.entry ids.now) }
    ensures groups { IfOk result (λ new. new.groups ≡ own.now.groups) }
{
    if own.given().groups.as_slice().is_empty() {
        return Ok(made);
    }
    let mut all = made;
    for id in ids {
        all = append_group(alloc, all, own, *id)?;
    }
    Ok(all)
}

/// A record with some of its groups appended.
pub fn with_groups<'m>(
    alloc: Global,
    own: &Record<'m>,
    ids: &[GroupId],
) -> Result<Record<'m>, OutOfMemory>
    ensures appended { IfOk result (λ made. made ≡ with_groups own.now ids.now) }
    ensures groups { IfOk result (λ made. made.groups ≡ own.now.groups) }
{
    append_groups(alloc, own.copy(alloc)?, own, ids)
}

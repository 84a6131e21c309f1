ghost use Rattle.std.specs.Prelude.{◌≡◌, IfOk};
ghost use Rattle.module_rules.specs.Groups.{with_group};

use crate::Record;
use bp_faults::OutOfMemory;
use bp_props::GroupId;
use std::alloc::Global;

/// A record with its own group of an id appended, if it has one. `own` has the same groups, such as the record of
/// which it is a copy. Where there is no such group nothing is copied.
pub fn append_group<'m>(
    alloc: Global,
    made: Record<'m>,
    own: &Record<'_>,
    id: GroupId,
) -> Result<Record<'m>, OutOfMemory>
    requires { made.groups ≡ own.now.groups }
    ensures appended { IfOk result (λ new. new ≡ with_group made.entry id) }
    ensures groups { IfOk result (λ new. new.groups ≡ own.now.groups) }
{
    let Some(group) = own.given().group(id) else {
        return Ok(made);
    };
    let mut props = made.into_props(alloc)?;
    props.append(alloc, group)?;
    Record::new(alloc, props)
}

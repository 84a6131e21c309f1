ghost use Rattle.std.specs.Prelude.{◌≡◌, OnOk, OnErr};
ghost use Rattle.bp_props.specs.Groups.{group_merged, group_empty, group_restricted};

use crate::fields::{GroupProps, all_fields, with_dirs, with_flags, with_names, with_truths};
use crate::given::keep_scalar;
use crate::merge::Winner;
use crate::table::{
    copy_lists, copy_scalars, group_lists, keep_lists, keep_scalars, merge_lists, merge_scalars,
};
use crate::{
    Field, Listed, ModuleKind, group_dirs, group_flags, group_names, group_sources, group_truths,
};
use bp_faults::{OutOfMemory, Payload};
use std::alloc::Global;

macro_rules! empty_group {
    ($alloc:expr, [$(($set:ident $a:ident))*] [$(($list:ident $b:ident))*]) => {
        GroupProps {
            $($set: None,)*
            $($list: Listed::empty(),)*
        }
    };
}

/// Merges all lists of a group, or none.
macro_rules! merge_group_lists {
    ($group:expr, $alloc:expr, $other:expr) => {
        group_sources!(merge_lists $group, $alloc, $other,
            group_flags!(merge_lists $group, $alloc, $other,
                group_dirs!(merge_lists $group, $alloc, $other,
                    group_names!(merge_lists $group, $alloc, $other, ()))))
    };
}

impl GroupProps {
    /// A group that sets nothing. It takes no memory.
    pub fn empty(alloc: Global) -> GroupProps
        ensures { result ≡ group_empty }
    {
        let empty = group_sources!(all_fields empty_group alloc);
        empty
    }

    /// Merges a group into this one.
    pub(crate) fn merge(
        &mut self,
        alloc: Global,
        other: &GroupProps,
        winner: Winner,
    ) -> Result<(), OutOfMemory>
        ensures ok { OnOk result (self.new ≡ group_merged winner self.old other.now) }
        ensures err { OnErr result (self.new ≡ self.old) }
    {
        merge_group_lists!(self, alloc, other);
        group_truths!(merge_scalars self, other, winner);
        Ok(())
    }

    /// Drops the fields that the kind's table lacks. It takes no memory.
    pub(crate) fn restrict(&mut self, kind: ModuleKind)
        ensures { self.new ≡ group_restricted kind self.old }
    {
        group_truths!(keep_scalars self, kind);
        group_lists!(keep_lists self, kind);
    }
}

impl Payload for GroupProps {
    fn copy(&self, alloc: Global) -> Result<Self, OutOfMemory> {
        let mut copy = GroupProps::empty(alloc);
        group_lists!(copy_lists copy, alloc, self);
        group_truths!(copy_scalars copy, self);
        Ok(copy)
    }
}

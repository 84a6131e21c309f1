ghost use Rattle.std.specs.Prelude.{◌≡◌, OnOk, OnErr, IfOk, option_copied};
ghost use Rattle.std.specs.Option.{unwrap_or};

use crate::merge::Winner;
use crate::pairs::{copy_pairs, index_of_id, insert_at};
use crate::{Field, GroupId, GroupProps, ModuleKind};
use bp_faults::{OutOfMemory, Payload};
use std::alloc::Global;
use std::marker::Model;

/// The groups that a record has. Contracts see them as pairs, ascending by the group.
///
/// They are a sorted list, since a record has few: it costs what the groups hold, and none costs nothing.
#[derive(Debug, Drop)]
pub struct Groups {
    pairs: Vec<(GroupId, GroupProps)>,
}

impl Model for Groups {
    ghost use Rattle.std.specs.Prelude.{List};
    ghost use Rattle.bp_props.specs.declared.group_id.GroupId.{GroupId};
    ghost use Rattle.bp_props.specs.declared.fields.GroupProps.{GroupProps};
    ghost use Rattle.bp_props.specs.Groups.{Ascends};

    ghost Value = { List (GroupId × GroupProps) };

    ghost view = { λ g. g.pairs.items };

    ghost invariant = { λ g. Ascends g.pairs.items };
}

impl Groups {
    ghost use Rattle.std.specs.Prelude.{◌<◌, [], filter, length, set};
    ghost use Rattle.std.specs.List.{HoldsAt};
    ghost use Rattle.bp_props.specs.Kinds.{has_field};
    ghost use Rattle.bp_props.specs.declared.fields.Field.TheVariants.{Group};
    ghost use Rattle.bp_props.specs.Groups.{group_of, group_put, groups_merged, groups_with, EachMerged};

    /// No groups. It takes no memory.
    pub fn empty(alloc: Global) -> Groups
        ensures { result ≡ [] }
    {
        Groups {
            pairs: Vec::new(alloc),
        }
    }

    /// The group of an id, where there is one.
    pub fn group(&self, id: GroupId) -> Option<&GroupProps>
        ensures { option_copied result ≡ group_of self.now id }
    {
        match index_of_id(self.pairs.as_slice(), id) {
            Ok(index) => Some(&self.pairs[index].1),
            Err(_) => None,
        }
    }

    /// The groups with their ids, ascending.
    pub fn as_slice(&self) -> &[(GroupId, GroupProps)]
        ensures { result.now ≡ self.now }
    {
        self.pairs.as_slice()
    }

    /// Puts a group under its id, in place of the one that stands there.
    pub fn insert(&mut self, id: GroupId, group: GroupProps) -> Result<(), OutOfMemory>
        ensures ok { OnOk result (self.new ≡ groups_with self.old id group) }
        ensures err { OnErr result (self.new ≡ self.old) }
    {
        match index_of_id(self.pairs.as_slice(), id) {
            Ok(index) => self.pairs[index].1 = group,
            Err(index) => insert_at(&mut self.pairs, index, (id, group))?,
        }
        Ok(())
    }

    /// Puts another group in the place of the one at an index, under the same id. It takes no memory.
    pub fn replace_at(&mut self, index: usize, group: GroupProps)
        requires { index < length self.old }
        ensures { HoldsAt (λ e. self.new ≡ set self.old index (e.0, group)) self.old index }
    {
        self.pairs[index].1 = group;
    }

    /// Drops the groups that the kind's table lacks. It takes no memory.
    pub(crate) fn restrict(&mut self, kind: ModuleKind)
        ensures { self.new ≡ filter (λ e. has_field kind (Group e.0)) self.old }
    {
        self.pairs.retain(|pair| kind.has(Field::Group(pair.0)));
    }

    // Merges a group into the one of its id.
    fn put(
        &mut self,
        alloc: Global,
        id: GroupId,
        group: &GroupProps,
        winner: Winner,
    ) -> Result<(), OutOfMemory>
        ensures { OnOk result (self.new ≡ group_put winner self.old id group.now) }
    {
        let made = match self.group(id) {
            Some(own) => {
                let mut made = own.copy(alloc)?;
                made.merge(alloc, group, winner)?;
                made
            }
            None => group.copy(alloc)?,
        };
        self.insert(id, made)
    }

    // Merges each group into the one of its id. Where memory ran out some are.
    fn put_all(
        &mut self,
        alloc: Global,
        others: &[(GroupId, GroupProps)],
        winner: Winner,
    ) -> Result<(), OutOfMemory>
        ensures { OnOk result (self.new ≡ groups_merged winner self.old others.now) }
    {
        for pair in others {
            self.put(alloc, pair.0, &pair.1, winner)?;
        }
        Ok(())
    }

    /// These groups, each other one merged into the one of its id. None where there is no other.
    pub(crate) fn merged(
        &self,
        alloc: Global,
        others: &Groups,
        winner: Winner,
    ) -> Result<Option<Groups>, OutOfMemory>
        ensures all { IfOk result (λ made. unwrap_or made self.now ≡ groups_merged winner self.now others.now) }
        ensures each { IfOk result (λ made. EachMerged winner self.now others.now (unwrap_or made self.now)) }
    {
        if others.pairs.is_empty() {
            return Ok(None);
        }
        let mut made = self.copy(alloc)?;
        made.put_all(alloc, others.pairs.as_slice(), winner)?;
        Ok(Some(made))
    }

    /// Takes other groups in place of these, where some are given.
    pub(crate) fn replace(&mut self, made: Option<Groups>)
        ensures { self.new ≡ unwrap_or made self.old }
    {
        if let Some(groups) = made {
            *self = groups;
        }
    }
}

impl Payload for Groups {
    fn copy(&self, alloc: Global) -> Result<Self, OutOfMemory> {
        Ok(Groups {
            pairs: copy_pairs(alloc, self.pairs.as_slice())?,
        })
    }
}

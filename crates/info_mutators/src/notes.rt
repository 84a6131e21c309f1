ghost use Rattle.std.specs.Prelude.{◌≡◌, ◌≤◌, ◌-◌, ◌∷◌, [], IfOk, OnOk, OnErr, slice_get, length, take, drop, reverse};
ghost use Rattle.std.specs.Option.{option_map, unwrap_or};
ghost use Rattle.serial_pass.specs.Orders.{numbers};
ghost use Rattle.info_mutators.specs.Inside.{NotesNumbers, NotesOther, StaysNoted};
ghost use Rattle.info_mutators.specs.Kept.{if_short};

use bp_faults::limits::LONGEST_LINE;
use bp_faults::{NodeId, OutOfMemory};
use indexmap::IndexSet;
use std::alloc::Global;
use std::marker::Model;

/// Nodes in the order in which they are noted, each once, until there are too many. Contracts see the list of their
/// numbers.
///
/// The last bits of a number are its slot, so numbers that stand close together have slots of their own, and no hash is
/// made of them. The first number that comes to a slot owns it. Where another number owns the slot, a set knows whether
/// the number is noted.
#[derive(Drop)]
pub struct Notes {
    nodes: Vec<NodeId>,
    /// For each slot its owner's number plus 1, or 0 where it is free.
    slots: Vec<u64>,
    /// The bits of a number that are its slot.
    mask: usize,
    others: IndexSet<u32>,
}

impl Model for Notes {
    ghost use Rattle.std.specs.Prelude.{List, ℕ};
    ghost use Rattle.serial_pass.specs.Orders.{numbers};
    ghost use Rattle.info_mutators.specs.Inside.{KnowsNoted};

    ghost Value = { List ℕ };

    ghost view = { λ notes. numbers notes.nodes.items };

    ghost invariant = { λ notes. KnowsNoted notes.mask notes.slots.items notes.others.keys
        (numbers notes.nodes.items) };
}

/// How many slots there are for so many nodes: a power of two, and about one for each node. Of what dependencies hand
/// on half repeats, as a rule, so that nodes that stand together have slots of their own. There are at most 2,048,
/// which take 16 KB.
fn slots_for(room: usize) -> usize {
    match room {
        0 => 0,
        1..=16 => 16,
        17..=64 => 64,
        65..=256 => 128,
        257..=1_024 => 512,
        _ => 2_048,
    }
}

/// What a slot holds. Where there is no such slot, it is a number that no slot holds.
fn held_at(slots: &[u64], slot: usize) -> u64
    ensures { result ≡ unwrap_or (slice_get slots.now slot) u64.MAX }
{
    slots.get(slot).copied().unwrap_or(u64::MAX)
}

/// How many of some nodes, from their last on, are the first of others, in the same order.
fn matching_tail(nodes: &[NodeId], others: &[NodeId]) -> usize
    ensures within { result ≤ length nodes.now }
    ensures same { reverse (numbers (drop (length nodes.now - result) nodes.now)) ≡ numbers (take result others.now) }
{
    let most = nodes.len().min(others.len());
    for count in 0..most {
        if nodes[nodes.len() - 1 - count].0 != others[count].0 {
            return count;
        }
    }
    most
}

/// Notes a node in a list and in a set, where the set doesn't have it.
fn note_other(
    nodes: &mut Vec<NodeId>,
    others: &mut IndexSet<u32>,
    node: NodeId,
) -> Result<(), OutOfMemory>
    ensures noted { OnOk result
        (NotesOther node others.old.keys nodes.old.items others.new.keys nodes.new.items) }
    ensures err { OnErr result (StaysNoted others.old.keys nodes.old.items others.new.keys nodes.new.items) }
{
    if !others.contains(&node.0) {
        nodes.reserve(1)?;
        others.insert_full(node.0)?;
        nodes.push(node)?;
    }
    Ok(())
}

impl Notes {
    /// Without nodes, but with room for so many, as far as they aren't too many.
    pub fn with_room(alloc: Global, room: usize) -> Result<Notes, OutOfMemory>
        ensures { IfOk result (λ notes. notes ≡ []) }
    {
        let slots = slots_for(room);
        Ok(Notes {
            nodes: Vec::with_capacity(alloc, room.min(LONGEST_LINE + 1))?,
            slots: vec![in alloc; 0; slots]?,
            mask: slots.saturating_sub(1),
            others: IndexSet::new(alloc),
        })
    }

    /// How many of some nodes, from their last on, are those that were noted first, in the same order.
    pub fn shared_tail(&self, nodes: &[NodeId]) -> usize
        ensures within { result ≤ length nodes.now }
        ensures same { reverse (numbers (drop (length nodes.now - result) nodes.now)) ≡ take result self.now }
    {
        matching_tail(nodes, &self.nodes)
    }

    /// Notes a node where it isn't there yet, unless there are too many. It takes its slot where that is free, and else
    /// it is noted in the set of others. Of the nodes that come again most own their slots.
    pub fn note(&mut self, node: NodeId) -> Result<(), OutOfMemory>
        ensures { OnOk result (NotesNumbers self.old (node.0 ∷ []) self.new) }
    {
        let slot = node.0 as usize & self.mask;
        let held = held_at(&self.slots, slot);
        let mark = node.0 as u64 + 1;
        if held == mark {
            return Ok(());
        }
        if self.nodes.len() > LONGEST_LINE {
            return Ok(());
        }
        if held == 0 {
            self.nodes.push(node)?;
            self.slots[slot] = mark;
            return Ok(());
        }
        note_other(&mut self.nodes, &mut self.others, node)
    }

    /// The nodes, where they aren't too many.
    pub fn into_short(self) -> Option<Vec<NodeId>>
        ensures { option_map (λ nodes. numbers nodes.items) result ≡ if_short self }
    {
        let mut nodes = self.nodes;
        if nodes.len() > LONGEST_LINE {
            return None;
        }
        nodes.shrink_to_fit();
        Some(nodes)
    }
}

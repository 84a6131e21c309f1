use bp_faults::{NodeId, OutOfMemory};
use smallvec::SmallVec;
use std::alloc::Global;
use std::marker::Model;

/// A node of a list, by its number: `SmallVec` asks for values that have a default.
#[derive(Default, Drop)]
pub struct Member {
    number: u32,
}

impl Model for Member {
    ghost use Rattle.bp_faults.specs.declared.ids.NodeId.{NodeId};

    ghost Value = { NodeId };

    ghost view = { λ member. record { 0 = member.number } };
}

impl Member {
    ghost use Rattle.std.specs.Prelude.{◌≡◌};

    fn of(n: NodeId) -> Member
        ensures { result ≡ n }
    {
        Member { number: n.0 }
    }

    pub fn node(&self) -> NodeId
        ensures { result ≡ self.now }
    {
        NodeId(self.number)
    }
}

/// Nodes of one module, of which two take no memory of their own. Contracts see them as a list.
#[derive(Drop)]
pub struct NodeList {
    nodes: SmallVec<Member, 2>,
}

impl Model for NodeList {
    ghost use Rattle.std.specs.Prelude.{List};
    ghost use Rattle.bp_faults.specs.declared.ids.NodeId.{NodeId};

    ghost Value = { List NodeId };

    ghost view = { λ list. list.nodes.items };
}

impl NodeList {
    ghost use Rattle.std.specs.Prelude.{◌≡◌, ◌++◌, ◌∷◌, [], OnOk};

    pub fn new(alloc: Global) -> NodeList
        ensures { result ≡ [] }
    {
        NodeList {
            nodes: SmallVec::new(alloc),
        }
    }

    pub fn push(&mut self, n: NodeId) -> Result<(), OutOfMemory>
        ensures { OnOk result (self.new ≡ self.old ++ n ∷ []) }
    {
        self.nodes.push(Member::of(n))?;
        Ok(())
    }

    pub fn as_slice(&self) -> &[Member]
        ensures { result.now ≡ self.now }
    {
        self.nodes.as_slice()
    }
}

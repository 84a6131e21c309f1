ghost use Rattle.std.specs.Prelude.{◌≡◌};
ghost use Rattle.info_mutators.specs.Dependencies.{is_archived, is_linked_against, record_made};

use bp_faults::{NodeId, Path, Text};
use module_graph::EdgeKind;
use module_rules::{Record, first_record};
use mutator_rules::Split;
use std::marker::Model;

/// A dependency of a node: its edge's kind, its node, the name of its module, and what was made of it.
#[derive(Drop)]
pub struct Dependency<'a, 'm> {
    kind: EdgeKind,
    node: NodeId,
    name: &'a Text,
    made: &'a Split<Record<'m>>,
}

impl<'a, 'm> Model for Dependency<'a, 'm> {
    ghost use Rattle.info_mutators.specs.Dependencies.{Dependency, record_made};

    ghost Value = { Dependency };

    ghost view = { λ d. record { kind = d.kind; node = d.node; name = d.name.now; props = record_made d.made.now } };
}

/// Whether edges of the kind lead to what is put into a library or a binary.
pub fn is_archived(kind: EdgeKind) -> bool
    ensures { result ≡ is_archived kind }
{
    matches!(kind, EdgeKind::Whole | EdgeKind::Static)
}

impl<'a, 'm> Dependency<'a, 'm> {
    pub fn new(
        kind: EdgeKind,
        node: NodeId,
        name: &'a Text,
        made: &'a Split<Record<'m>>,
    ) -> Dependency<'a, 'm>
        ensures { result ≡ record { kind = kind; node = node; name = name.now; props = record_made made.now } }
    {
        Dependency {
            kind,
            node,
            name,
            made,
        }
    }

    pub fn kind(&self) -> EdgeKind
        ensures { result ≡ self.now.kind }
    {
        self.kind
    }

    pub fn node(&self) -> NodeId
        ensures { result ≡ self.now.node }
    {
        self.node
    }

    pub fn name(&self) -> &'a Text
        ensures { result.now ≡ self.now.name }
    {
        self.name
    }

    pub fn is_archived(&self) -> bool
        ensures { result ≡ is_archived self.now.kind }
    {
        is_archived(self.kind)
    }

    pub fn is_linked_against(&self) -> bool
        ensures { result ≡ is_linked_against self.now.kind }
    {
        matches!(
            self.kind,
            EdgeKind::Whole | EdgeKind::Static | EdgeKind::Shared | EdgeKind::Header
        )
    }

    /// What it exports. A result without a record has nothing in its lists.
    pub fn exports(&self) -> &'a [Path]
        ensures { result.now ≡ self.now.props.exports }
    {
        match first_record(self.made) {
            Some(made) => made.exports(),
            None => &[],
        }
    }

    pub fn line(&self) -> &'a [NodeId]
        ensures { result.now ≡ self.now.props.line }
    {
        match first_record(self.made) {
            Some(made) => made.line(),
            None => &[],
        }
    }

    pub fn slibs(&self) -> &'a [NodeId]
        ensures { result.now ≡ self.now.props.slibs }
    {
        match first_record(self.made) {
            Some(made) => made.slibs(),
            None => &[],
        }
    }
}

ghost use Rattle.std.specs.Prelude.{◌≡◌, IsTrue, Some, map, length, if◌then◌else◌};
ghost use Rattle.std.specs.Arc.{arc_value};
ghost use Rattle.std.specs.List.{list_all};
ghost use Rattle.bp_faults.specs.Answers.{Answers};
ghost use Rattle.mutator_rules.specs.Arrivals.{kinds_into};
ghost use Rattle.mutator_rules.specs.Conditions.{MayVisit, indices_in};
ghost use Rattle.mutator_rules.specs.Idle.{KeepsPayloads};
ghost use Rattle.info_mutators.specs.Idle.{has_no_level};
ghost use Rattle.info_mutators.specs.SdkLevel.{is_level_handed, lesser, least, handed_levels, own_level_or};
ghost use Rattle.info_mutators.specs.SdkLevel.{level_meant};

use crate::leaving::{NO_LEVEL, have_no_level};
use bp_faults::NodeId;
use bp_props::{Given, Module};
use module_graph::{EdgeKind, Graph};
use module_rules::{Record, Seen};
use mutator_rules::{Config, TopDown};
use pass_core::VisitError;
use std::alloc::Global;
use std::marker::Model;
use std::sync::Arc;

fn is_level_handed(kind: EdgeKind) -> bool
    ensures { result ≡ is_level_handed kind }
{
    matches!(kind, EdgeKind::Whole | EdgeKind::Static | EdgeKind::Header)
}

fn lesser(least: Option<u32>, level: u32) -> u32
    ensures { result ≡ lesser least level }
{
    match least {
        Some(least) => least.min(level),
        None => level,
    }
}

/// The least level with one edge more.
fn with_edge(least: Option<u32>, kind: EdgeKind, level: u32) -> Option<u32>
    ensures { result ≡ (if is_level_handed kind then Some (lesser least level) else least) }
{
    if is_level_handed(kind) {
        Some(lesser(least, level))
    } else {
        least
    }
}

/// The least level that is handed to a node.
fn least_handed(kinds: &[EdgeKind], ins: &[Arc<Record<'_>>]) -> Option<u32>
    requires { length ins.now ≡ length kinds.now }
    ensures { result ≡ least (handed_levels kinds.now (map arc_value ins.now)) }
{
    let mut least = None;
    for (index, kind) in kinds.iter().enumerate() {
        least = with_edge(least, *kind, ins[index].level());
    }
    least
}

fn own_level_or(level: u32, set: Option<Given<u32>>) -> u32
    ensures { result ≡ own_level_or level set }
{
    match set {
        Some(given) => given.value,
        None => level,
    }
}

/// The rule `sdk`: the level of the SDK that a module is built for. Contracts see it as the list of all modules.
#[derive(Drop)]
pub struct SdkLevel<'a> {
    mods: &'a [Module],
}

impl<'a> Model for SdkLevel<'a> {
    ghost use Rattle.std.specs.Prelude.{List};
    ghost use Rattle.bp_props.specs.declared.module.Module.{Module};

    ghost Value = { List Module };

    ghost view = { λ rule. rule.mods.now };
}

impl<'a> SdkLevel<'a> {
    /// It takes no memory.
    pub fn new(mods: &'a [Module], _c: &'a Config) -> SdkLevel<'a>
        ensures { result ≡ mods.now }
    {
        SdkLevel { mods }
    }

    /// Whether the records of all nodes of a graph are kept: no node sets a level, and none has one.
    pub fn keeps_payloads(&self, g: &Graph<Record<'_>>) -> bool
        ensures keeps { IsTrue result → KeepsPayloads
            (λ n ins. level_meant g.now.nodes n (kinds_into g.now.nodes n) ins) g.now.nodes }
        ensures exact { result ≡ list_all has_no_level g.now.nodes }
    {
        have_no_level(g.nodes.as_slice())
    }
}

impl<'a, 'm> TopDown<Record<'m>> for SdkLevel<'a> {
    ghost meaning = { λ rule. level_meant };

    ghost accepts = { λ rule. indices_in (length rule) };

    fn visit(
        &self,
        alloc: Global,
        g: &Graph<Record<'m>>,
        n: NodeId,
        kinds: &[EdgeKind],
        ins: &[Arc<Record<'m>>],
    ) -> Result<Record<'m>, VisitError>
        requires may { MayVisit (indices_in (length self.now)) g.now.nodes n.0 }
        requires kinds { kinds.now ≡ kinds_into g.now.nodes n.0 }
        requires each { length ins.now ≡ length kinds.now }
        ensures { Answers (λ out. out) result (level_meant g.now.nodes n.0 kinds.now (map arc_value ins.now)) }
    {
        let own = &Seen::at(self.mods, g, n).node.payload;
        let handed = least_handed(kinds, ins).unwrap_or(NO_LEVEL);
        let level = own_level_or(handed, own.given().min_sdk_version);
        Ok(own.at_level(alloc, level)?)
    }
}

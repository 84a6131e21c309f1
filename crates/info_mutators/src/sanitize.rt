ghost use Rattle.std.specs.Prelude.{◌≡◌, ◌&&◌, IfOk, IsTrue, OnOk, map, length};
ghost use Rattle.std.specs.Arc.{arc_value};
ghost use Rattle.std.specs.List.{list_all};
ghost use Rattle.bp_faults.specs.Answers.{Answers};
ghost use Rattle.graph_nodes.specs.Nodes.{targets};
ghost use Rattle.info_mutators.specs.Dependencies.{is_archived};
ghost use Rattle.mutator_rules.specs.Conditions.{MayVisit, indices_in};
ghost use Rattle.mutator_rules.specs.Idle.{KeepsPayloads, WantsNothing};
ghost use Rattle.info_mutators.specs.Idle.{is_off, is_unsanitized};
ghost use Rattle.info_mutators.specs.Sanitize.{outgoing_of, incoming_of};
ghost use Rattle.info_mutators.specs.Sanitize.{with_flag_if, has_sanitized, with_sanitizer, sanitize_meant};

use crate::asan::{asan_or, is_asan, is_never};
use crate::dependency::is_archived;
use crate::leaving::{are_off, are_unsanitized};
use bp_faults::{NodeId, OutOfMemory, Payload, Text};
use bp_props::{Listed, Module, Props};
use module_graph::{Axis, Edge, EdgeKind, Graph, Variation};
use module_rules::{Record, Seen};
use mutator_rules::{Config, Transition};
use pass_core::VisitError;
use std::alloc::Global;
use std::marker::Model;
use std::sync::Arc;

/// What the compiler and the linker are told.
const FLAG: &str = "-fsanitize=address";

fn add_flag_if(alloc: Global, list: &mut Listed<Text>, needed: bool) -> Result<(), OutOfMemory>
    ensures { OnOk result (list.new ≡ with_flag_if needed list.old) }
{
    if needed {
        list.push(alloc, Text::from_str(alloc, FLAG)?)?;
    }
    Ok(())
}

/// Whether an edge leads to what is put into the node, and has code of the sanitizer in it.
fn is_sanitized(kind: EdgeKind, made: &Record<'_>) -> bool
    ensures { result ≡ (is_archived kind && made.now.asan) }
{
    is_archived(kind) && made.given().asan
}

/// Whether a Whole or Static dependency has code of the sanitizer in it.
fn has_sanitized(edges: &[Edge], ins: &[Arc<Record<'_>>]) -> bool
    requires { length ins.now ≡ length edges.now }
    ensures { result ≡ has_sanitized edges.now (map arc_value ins.now) }
{
    for (index, edge) in edges.iter().enumerate() {
        if is_sanitized(edge.kind, &ins[index]) {
            return true;
        }
    }
    false
}

fn with_sanitizer<'m>(
    alloc: Global,
    own: &Record<'m>,
    compiles: bool,
    has: bool,
) -> Result<Record<'m>, OutOfMemory>
    ensures { IfOk result (λ made. made ≡ with_sanitizer compiles has own.now) }
{
    if !compiles && !has && !own.given().asan {
        return own.copy(alloc);
    }
    let mut made = own.to_props(alloc)?;
    add_flag_if(alloc, &mut made.base.cflags, compiles)?;
    add_flag_if(alloc, &mut made.base.ldflags, has)?;
    made.asan = has;
    Record::new(alloc, made)
}

/// The rule `sanitize`: which variants are built with the address sanitizer. Contracts see it as the list of all
/// modules.
#[derive(Drop)]
pub struct Sanitize<'a> {
    mods: &'a [Module],
}

impl<'a> Model for Sanitize<'a> {
    ghost use Rattle.std.specs.Prelude.{List};
    ghost use Rattle.bp_props.specs.declared.module.Module.{Module};

    ghost Value = { List Module };

    ghost view = { λ rule. rule.mods.now };
}

impl<'a> Sanitize<'a> {
    /// It takes no memory.
    pub fn new(mods: &'a [Module], _c: &'a Config) -> Sanitize<'a>
        ensures { result ≡ mods.now }
    {
        Sanitize { mods }
    }

    /// Whether nothing is wanted of any node of a graph but the variation that is empty: no module is on.
    pub fn wants_nothing(&self, g: &Graph<Record<'_>>) -> bool
        ensures nothing { IsTrue result → WantsNothing sanitize_meant g.now.nodes }
        ensures exact { result ≡ list_all is_off g.now.nodes }
    {
        are_off(g.nodes.as_slice())
    }

    /// Whether the records of all nodes of a graph are kept: no node has code of the sanitizer in it.
    pub fn keeps_payloads(&self, g: &Graph<Record<'_>>) -> bool
        ensures keeps { IsTrue result → KeepsPayloads (sanitize_meant.mutate g.now.nodes) g.now.nodes }
        ensures exact { result ≡ list_all is_unsanitized g.now.nodes }
    {
        are_unsanitized(g.nodes.as_slice())
    }
}

impl<'a, 'm> Transition<Record<'m>> for Sanitize<'a> {
    ghost meaning = { λ rule. sanitize_meant };

    ghost accepts = { λ rule. indices_in (length rule) };

    fn axis(&self) -> Axis
        ensures { result ≡ sanitize_meant.axis }
    {
        Axis::Sanitize
    }

    fn split(
        &self,
        alloc: Global,
        g: &Graph<Record<'m>>,
        n: NodeId,
    ) -> Result<Vec<Variation>, VisitError>
        requires { MayVisit (indices_in (length self.now)) g.now.nodes n.0 }
        ensures { Answers (λ list. list.items) result (sanitize_meant.split g.now.nodes n.0) }
    {
        let own = &Seen::at(self.mods, g, n).node.payload;
        let mut list = Vec::with_capacity(alloc, 1)?;
        list.push(asan_or(Variation::Empty, own))?;
        Ok(list)
    }

    fn outgoing(
        &self,
        _g: &Graph<Record<'m>>,
        _n: NodeId,
        kind: EdgeKind,
        v: Variation,
    ) -> Variation
        requires { MayVisit (indices_in (length self.now)) _g.now.nodes _n.0 }
        ensures { result ≡ sanitize_meant.outgoing _g.now.nodes _n.0 kind v }
    {
        if is_archived(kind) {
            v
        } else {
            Variation::Empty
        }
    }

    fn incoming(&self, g: &Graph<Record<'m>>, n: NodeId, w: Variation) -> Variation
        requires { MayVisit (indices_in (length self.now)) g.now.nodes n.0 }
        ensures { result ≡ sanitize_meant.incoming g.now.nodes n.0 w }
    {
        let own = &Seen::at(self.mods, g, n).node.payload;
        if is_never(own) {
            Variation::Empty
        } else {
            asan_or(w, own)
        }
    }

    fn mutate(
        &self,
        alloc: Global,
        g: &Graph<Record<'m>>,
        n: NodeId,
        ins: &[Arc<Record<'m>>],
    ) -> Result<Record<'m>, VisitError>
        requires may { MayVisit (indices_in (length self.now)) g.now.nodes n.0 }
        requires each { length ins.now ≡ length (targets g.now.nodes n.0) }
        ensures { Answers (λ out. out) result (sanitize_meant.mutate g.now.nodes n.0 (map arc_value ins.now)) }
    {
        let node = Seen::at(self.mods, g, n).node;
        let compiles = is_asan(node.vars.get(Axis::Sanitize));
        let has = node.payload.given().asan
            || compiles
            || has_sanitized(node.edges.as_slice(), ins);
        Ok(with_sanitizer(alloc, &node.payload, compiles, has)?)
    }
}

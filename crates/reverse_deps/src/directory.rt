ghost use Rattle.std.specs.Prelude.{◌≡◌, ◌<◌, ◌^◌, [], IfOk, length, replicate};
ghost use Rattle.std.specs.List.{find};
ghost use Rattle.bp_names.specs.Meaning.{number_of, NumbersFirst};
ghost use Rattle.mutator_rules.specs.Conditions.{MayRun, indices_in};
ghost use Rattle.reverse_deps.specs.Inside.{IsDirectory, ListsNodes, is_wanted_at};
ghost use Rattle.reverse_deps.specs.Resolved.{has_variation, is_wanted, names_by_number, node_for};

use crate::node_list::{Member, NodeList};
use bp_faults::{NodeId, OutOfMemory, Text};
use bp_names::laws::tables_grow_with_lists;
use bp_props::Module;
use module_graph::laws::one_more_item;
use module_graph::{Axis, Graph, Node, Variation, Variations};
use mutator_rules::Wanted;
use name_index::NameIndex;
use std::alloc::Global;

/// The first module of each name, and the nodes of each module, by number.
#[derive(Drop)]
pub struct Directory<'a> {
    pub names: NameIndex<'a>,
    pub nodes: Vec<NodeList>,
}

/// The number of the first module of each name.
fn number_names<'a>(alloc: Global, mods: &'a [Module]) -> Result<NameIndex<'a>, OutOfMemory>
    requires { length mods.now < 2 ^ 32 }
    ensures { IfOk result (λ table. NumbersFirst (names_by_number mods.now) table) }
{
    tables_grow_with_lists();
    let mut table = NameIndex::new(alloc);
    for (number, item) in mods.iter().enumerate() {
        table.learn(item.name.as_str(), number as u32)?;
    }
    Ok(table)
}

fn empty_lists(alloc: Global, count: usize) -> Result<Vec<NodeList>, OutOfMemory>
    ensures { IfOk result (λ lists. lists.items ≡ replicate count []) }
{
    let mut lists = Vec::with_capacity(alloc, count)?;
    for _m in 0..count {
        lists.push(NodeList::new(alloc))?;
    }
    Ok(lists)
}

/// The nodes of each module, ascending.
fn nodes_by_module<P>(
    alloc: Global,
    mods: &[Module],
    g: &Graph<P>,
) -> Result<Vec<NodeList>, OutOfMemory>
    requires { MayRun (indices_in (length mods.now)) g.now.nodes }
    ensures many { IfOk result (λ lists. length lists.items ≡ length mods.now) }
    ensures each { IfOk result (λ lists. ListsNodes g.now.nodes (length mods.now) lists.items) }
{
    one_more_item::<Node<P>, NodeId>();
    let mut lists = empty_lists(alloc, mods.len())?;
    for (n, node) in g.nodes.as_slice().iter().enumerate() {
        lists[node.module.0 as usize].push(NodeId(n as u32))?;
    }
    Ok(lists)
}

fn has(axis: Axis, variation: Variation, vars: &Variations) -> bool
    ensures { result ≡ has_variation axis variation vars.now }
{
    variation.is_same(vars.get(axis))
}

fn is_wanted(want: Wanted, vars: &Variations) -> bool
    ensures { result ≡ is_wanted want vars.now }
{
    has(Axis::Target, want.target, vars)
        && has(Axis::Image, want.image, vars)
        && has(Axis::Link, want.link, vars)
}

fn is_wanted_at<P>(g: &Graph<P>, want: Wanted, n: NodeId) -> bool
    ensures { result ≡ is_wanted_at g.now.nodes want n }
{
    match g.nodes.as_slice().get(n.0 as usize) {
        Some(node) => is_wanted(want, &node.vars),
        None => false,
    }
}

/// The first of some nodes that has the wanted variations.
fn first_wanted<P>(g: &Graph<P>, members: &[Member], want: Wanted) -> Option<NodeId>
    ensures { result ≡ find (is_wanted_at g.now.nodes want) members.now }
{
    for member in members {
        let n = member.node();
        if is_wanted_at(g, want, n) {
            return Some(n);
        }
    }
    None
}

impl<'a> Directory<'a> {
    pub fn new<P>(
        alloc: Global,
        mods: &'a [Module],
        g: &Graph<P>,
    ) -> Result<Directory<'a>, OutOfMemory>
        requires few { length mods.now < 2 ^ 32 }
        requires may { MayRun (indices_in (length mods.now)) g.now.nodes }
        ensures { IfOk result (λ d. IsDirectory mods.now g.now.nodes d.names d.nodes.items) }
    {
        Ok(Directory {
            names: number_names(alloc, mods)?,
            nodes: nodes_by_module(alloc, mods, g)?,
        })
    }

    /// The number of the first module of a name.
    pub fn module_named(&self, name: &Text) -> Option<u32>
        ensures { result ≡ number_of self.now.names name.now }
    {
        self.names.number_of(name.as_str())
    }

    /// The least node of module `m` that has the wanted variations.
    pub fn node_for<P>(
        &self,
        mods: &[Module],
        g: &Graph<P>,
        m: usize,
        want: Wanted,
    ) -> Option<NodeId>
        requires directory { IsDirectory mods.now g.now.nodes self.now.names self.now.nodes.items }
        requires inside { m < length mods.now }
        ensures { result ≡ node_for g.now.nodes m want }
    {
        first_wanted(g, self.nodes[m].as_slice(), want)
    }
}

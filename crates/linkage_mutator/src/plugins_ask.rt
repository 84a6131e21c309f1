ghost use Rattle.std.specs.Prelude.{◌≡◌, map, None, IfOk, IsTrue, length, option_copied};
ghost use Rattle.std.specs.List.{list_all};
ghost use Rattle.std.specs.Arc.{arc_value};
ghost use Rattle.bp_faults.specs.Answers.{Answers};
ghost use Rattle.graph_nodes.specs.Nodes.{targets};
ghost use Rattle.linkage_mutator.specs.Idle.{is_no_plugin};
ghost use Rattle.linkage_mutator.specs.Plugins.{kind_named, link_of_host, plugin_request, is_shared, plugins_asked};
ghost use Rattle.linkage_mutator.specs.Inside.{kind_at};
ghost use Rattle.linkage_mutator.specs.Plugins.{IsNameTable, IsNameTableIfSome};
ghost use Rattle.module_rules.specs.Rules.{asks};
ghost use Rattle.module_rules.specs.Shaped.{asks_shaped};
ghost use Rattle.mutator_rules.specs.Conditions.{MayRun, MayVisit, indices_in};
ghost use Rattle.mutator_rules.specs.Idle.{LeavesAll};

use crate::leaving::are_no_plugins;
use crate::wanting::own_with;
use bp_faults::{Item, NodeId, OutOfMemory, Payload, Seq, Text};
use bp_props::{Module, ModuleKind};
use module_graph::{EdgeKind, Graph, Node, Variation, Variations};
use module_rules::laws::leaves_all_by_each;
use module_rules::{Record, Seen, one_variant, request};
use mutator_rules::{Axis, BottomUp, Config, Request, Split};
use name_index::NameIndex;
use pass_core::VisitError;
use std::alloc::Global;
use std::marker::Model;
use std::sync::Arc;

/// The rule `plugins`: a node that is linked shared asks, in reverse, for the modules whose plugin it is. Contracts see
/// it as the list of all modules.
#[derive(Drop)]
pub struct PluginsAsk<'a, 't> {
    mods: &'a [Module],
    names: Option<&'t NameIndex<'a>>,
}

impl<'a, 't> Model for PluginsAsk<'a, 't> {
    ghost use Rattle.std.specs.Prelude.{List, option_copied};
    ghost use Rattle.bp_props.specs.declared.module.Module.{Module};
    ghost use Rattle.linkage_mutator.specs.Plugins.{IsNameTableIfSome};

    ghost Value = { List Module };

    ghost view = { λ rule. rule.mods.now };

    ghost invariant = { λ rule. IsNameTableIfSome rule.mods.now (option_copied rule.names) };
}

impl<'a, 't> PluginsAsk<'a, 't> {
    /// The rule over some modules. It takes no memory, and walks over the modules for each item of `plugin_of`.
    pub fn new(mods: &'a [Module], _c: &'a Config) -> PluginsAsk<'a, 't>
        ensures { result ≡ mods.now }
    {
        PluginsAsk { mods, names: None }
    }

    /// The same rule, which looks each item up in a table of the modules' names.
    pub fn with_names(
        mods: &'a [Module],
        _c: &'a Config,
        names: &'t NameIndex<'a>,
    ) -> PluginsAsk<'a, 't>
        requires { IsNameTable mods.now names.now }
        ensures { result ≡ mods.now }
    {
        PluginsAsk {
            mods,
            names: Some(names),
        }
    }

    /// Whether the rule leaves every node of a graph as it is: no node is a plugin.
    pub fn leaves_all(&self, g: &Graph<Record<'_>>) -> bool
        requires { MayRun (indices_in (length self.now)) g.now.nodes }
        ensures alone { IsTrue result → LeavesAll (asks (plugins_asked self.now) self.now) g.now.nodes }
        ensures exact { result ≡ list_all is_no_plugin g.now.nodes }
    {
        leaves_all_by_each();
        are_no_plugins(g.nodes.as_slice())
    }
}

/// The kind of the first module of a name, by a walk over the modules.
fn kind_by_walk(mods: &[Module], name: &Text) -> Option<ModuleKind>
    ensures { result ≡ kind_named mods.now name.now }
{
    for item in mods {
        if *name == item.name {
            return Some(item.kind);
        }
    }
    None
}

fn kind_at(mods: &[Module], number: usize) -> Option<ModuleKind>
    ensures { result ≡ kind_at mods.now number }
{
    match mods.get(number) {
        Some(item) => Some(item.kind),
        None => None,
    }
}

/// The kind of the first module of a name, by a table of the names.
fn kind_by_table(mods: &[Module], table: &NameIndex<'_>, name: &Text) -> Option<ModuleKind>
    requires { IsNameTable mods.now table.now }
    ensures { result ≡ kind_named mods.now name.now }
{
    match table.number_of(name.as_str()) {
        Some(number) => kind_at(mods, number as usize),
        None => None,
    }
}

/// The kind of the first module of a name.
fn kind_named(mods: &[Module], names: Option<&NameIndex<'_>>, name: &Text) -> Option<ModuleKind>
    requires { IsNameTableIfSome mods.now (option_copied names) }
    ensures { result ≡ kind_named mods.now name.now }
{
    match names {
        Some(table) => kind_by_table(mods, table, name),
        None => kind_by_walk(mods, name),
    }
}

fn link_of_host(kind: Option<ModuleKind>) -> Variation
    ensures { result ≡ link_of_host kind }
{
    match kind {
        Some(ModuleKind::Binary | ModuleKind::Test) => Variation::Empty,
        _ => Variation::Shared,
    }
}

fn is_shared(link: Variation) -> bool
    ensures { result ≡ is_shared link }
{
    matches!(link, Variation::Shared)
}

impl<'a, 't> PluginsAsk<'a, 't> {
    fn plugin_request(
        &self,
        alloc: Global,
        vars: &Variations,
        item: &Item,
    ) -> Result<Request, OutOfMemory>
        ensures { IfOk result (λ made. made ≡ plugin_request self.now vars.now item.now) }
    {
        let host = kind_named(self.mods, self.names, &item.text);
        let want = own_with(vars, link_of_host(host));
        let mut made = request(alloc, EdgeKind::Shared, want, item)?;
        made.reverse = true;
        Ok(made)
    }

    fn plugin_requests(
        &self,
        alloc: Global,
        vars: &Variations,
        items: &[Item],
    ) -> Result<Seq<Request>, OutOfMemory>
        ensures { IfOk result (λ asked. asked ≡ map (plugin_request self.now vars.now) items.now) }
    {
        let mut asked = Seq::new(Vec::new(alloc));
        for item in items {
            asked.push(self.plugin_request(alloc, vars, item)?)?;
        }
        Ok(asked)
    }

    fn plugins_asked(
        &self,
        alloc: Global,
        item: &Module,
        node: &Node<Record<'_>>,
    ) -> Result<Seq<Request>, OutOfMemory>
        ensures { IfOk result (λ asked. asked ≡ plugins_asked self.now item.now node.now) }
    {
        if is_shared(node.vars.get(Axis::Link)) {
            let items = node.payload.given().plugin_of.items();
            self.plugin_requests(alloc, &node.vars, items)
        } else {
            Ok(Seq::new(Vec::new(alloc)))
        }
    }
}

impl<'a, 't, 'm> BottomUp<Record<'m>> for PluginsAsk<'a, 't> {
    ghost splits_along = { λ rule. None };

    ghost meaning = { λ rule. asks (plugins_asked rule) rule };

    ghost accepts = { λ rule. indices_in (length rule) };

    fn axis(&self) -> Option<Axis>
        ensures { result ≡ None }
    {
        None
    }

    fn visit(
        &self,
        alloc: Global,
        g: &Graph<Record<'m>>,
        n: NodeId,
        _ins: &[Arc<Split<Record<'m>>>],
    ) -> Result<Split<Record<'m>>, VisitError>
        requires may { MayVisit (indices_in (length self.now)) g.now.nodes n.0 }
        requires each { length _ins.now ≡ length (targets g.now.nodes n.0) }
        ensures { Answers (λ out. out) result
            (asks (plugins_asked self.now) self.now g.now.nodes n.0 (map arc_value _ins.now)) }
    {
        let at = Seen::at(self.mods, g, n);
        let asked = self.plugins_asked(alloc, at.module, at.node)?;
        Ok(one_variant(alloc, at.node.payload.copy(alloc)?, asked)?)
    }

    ghost shaped = { λ rule. asks_shaped (plugins_asked rule) rule };
}

ghost use Rattle.std.specs.Prelude.{◌≡◌, ◌++◌, None, IfOk, OnOk, length, map};
ghost use Rattle.std.specs.Arc.{arc_value};
ghost use Rattle.bp_faults.specs.Answers.{Answers};
ghost use Rattle.graph_nodes.specs.Nodes.{targets};
ghost use Rattle.linkage_mutator.specs.Deps.{named_items, libraries_asked, deps_of, deps_asked};
ghost use Rattle.module_rules.specs.Asking.{requests};
ghost use Rattle.module_rules.specs.Rules.{asks};
ghost use Rattle.module_rules.specs.Shaped.{asks_shaped};
ghost use Rattle.mutator_rules.specs.Conditions.{MayVisit, indices_in};

use crate::wanting::own_with;
use bp_faults::{NodeId, OutOfMemory, Payload, Seq};
use bp_props::{Module, ModuleKind, Source};
use module_graph::{EdgeKind, Graph, Node, Variation, Variations};
use module_rules::{COMMON, Record, Seen, ask, one_variant, request};
use mutator_rules::{Axis, BottomUp, Config, Request, Split, Wanted};
use pass_core::VisitError;
use std::alloc::Global;
use std::marker::Model;
use std::sync::Arc;

/// The rule `deps`: a node asks for the modules that it depends on. Contracts see it as the list of all modules.
#[derive(Drop)]
pub struct DepsAsk<'a> {
    mods: &'a [Module],
}

impl<'a> Model for DepsAsk<'a> {
    ghost use Rattle.std.specs.Prelude.{List};
    ghost use Rattle.bp_props.specs.declared.module.Module.{Module};

    ghost Value = { List Module };

    ghost view = { λ rule. rule.mods.now };
}

impl<'a> DepsAsk<'a> {
    /// The rule over some modules. It takes no memory.
    pub fn new(mods: &'a [Module], _c: &'a Config) -> DepsAsk<'a>
        ensures { result ≡ mods.now }
    {
        DepsAsk { mods }
    }
}

/// The requests for libraries and binaries.
fn libraries_asked(
    alloc: Global,
    vars: &Variations,
    own: &Record<'_>,
) -> Result<Seq<Request>, OutOfMemory>
    ensures { IfOk result (λ asked. asked ≡ libraries_asked vars.now own.now) }
{
    let as_static = own_with(vars, Variation::Static);
    let as_shared = own_with(vars, Variation::Shared);
    let unlinked = own_with(vars, Variation::Empty);
    let given = own.given();
    let base = &given.base;
    let whole = &base.whole_static_libs;
    let mut asked = Seq::new(Vec::new(alloc));
    let to = &mut asked;
    ask(alloc, to, EdgeKind::Whole, as_static, whole)?;
    ask(alloc, to, EdgeKind::Static, as_static, &base.static_libs)?;
    ask(alloc, to, EdgeKind::Shared, as_shared, &base.shared_libs)?;
    ask(alloc, to, EdgeKind::Header, unlinked, &base.header_libs)?;
    ask(alloc, to, EdgeKind::DataBin, unlinked, &given.data_bins)?;
    Ok(asked)
}

/// Adds a request for each source that names a module.
fn ask_named(
    alloc: Global,
    asked: &mut Seq<Request>,
    kind: EdgeKind,
    want: Wanted,
    sources: &[Source],
) -> Result<(), OutOfMemory>
    ensures { OnOk result (asked.new ≡ asked.old ++ requests kind want (named_items sources.now)) }
{
    for source in sources {
        if source.names_module() {
            asked.push(request(alloc, kind, want, &source.item)?)?;
        }
    }
    Ok(())
}

fn deps_of(
    alloc: Global,
    kind: ModuleKind,
    vars: &Variations,
    own: &Record<'_>,
) -> Result<Seq<Request>, OutOfMemory>
    ensures { IfOk result (λ asked. asked ≡ deps_of kind vars.now own.now) }
{
    let mut asked = match kind {
        ModuleKind::Filegroup => Seq::new(Vec::new(alloc)),
        _ => libraries_asked(alloc, vars, own)?,
    };
    let sources = own.given().base.srcs.items();
    ask_named(alloc, &mut asked, EdgeKind::Sources, COMMON, sources)?;
    Ok(asked)
}

fn deps_asked(
    alloc: Global,
    item: &Module,
    node: &Node<Record<'_>>,
) -> Result<Seq<Request>, OutOfMemory>
    ensures { IfOk result (λ asked. asked ≡ deps_asked item.now node.now) }
{
    deps_of(alloc, item.kind, &node.vars, &node.payload)
}

impl<'a, 'm> BottomUp<Record<'m>> for DepsAsk<'a> {
    ghost splits_along = { λ rule. None };

    ghost meaning = { λ rule. asks deps_asked rule };

    ghost accepts = { λ rule. indices_in (length rule) };

    fn axis(&self) -> Option<Axis>
        ensures { result ≡ None }
    {
        None
    }

    fn visit(
        &self,
        alloc: Global,
        g: &Graph<Record<'m>>,
        n: NodeId,
        _ins: &[Arc<Split<Record<'m>>>],
    ) -> Result<Split<Record<'m>>, VisitError>
        requires may { MayVisit (indices_in (length self.now)) g.now.nodes n.0 }
        requires each { length _ins.now ≡ length (targets g.now.nodes n.0) }
        ensures { Answers (λ out. out) result
            (asks deps_asked self.now g.now.nodes n.0 (map arc_value _ins.now)) }
    {
        let at = Seen::at(self.mods, g, n);
        let asked = deps_asked(alloc, at.module, at.node)?;
        Ok(one_variant(alloc, at.node.payload.copy(alloc)?, asked)?)
    }

    ghost shaped = { λ rule. asks_shaped deps_asked rule };
}

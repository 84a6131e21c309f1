ghost use Rattle.std.specs.Prelude.{◌≡◌, ◌<◌, ◌^◌, IfOk, length};
ghost use Rattle.bp_faults.specs.Answers.{Answers};
ghost use Rattle.mutator_rules.specs.Conditions.{MayRun, indices_in};
ghost use Rattle.reverse_deps.specs.Inside.{IsDirectory};
ghost use Rattle.reverse_deps.specs.Resolved.{wrong_kind, request_fault, missing_variant, fitting};
ghost use Rattle.reverse_deps.specs.Resolved.{module_for, resolved_node};

use crate::directory::Directory;
use bp_faults::{Fault, FaultKind, NodeId, OutOfMemory, Refusal};
use bp_props::{Module, ModuleKind};
use module_graph::{Axis, EdgeKind, Graph, GraphError, Variations, label};
use mutator_rules::Request;
use std::alloc::Global;

fn wrong_kind(edge: EdgeKind, kind: ModuleKind) -> Option<FaultKind>
    ensures { result ≡ wrong_kind edge kind }
{
    match (edge, kind) {
        (EdgeKind::Defaults, ModuleKind::Defaults) => None,
        (EdgeKind::Defaults, _) => Some(FaultKind::NotDefaults),
        (EdgeKind::Sources, ModuleKind::Filegroup) => None,
        (EdgeKind::Sources, _) => Some(FaultKind::BadSource),
        _ => None,
    }
}

fn request_fault(alloc: Global, kind: FaultKind, r: &Request) -> Result<Fault, OutOfMemory>
    ensures { IfOk result (λ fault. fault ≡ request_fault kind r.now) }
{
    Ok(Fault::on(alloc, kind, r.at, r.name.copy(alloc)?))
}

fn missing_variant(alloc: Global, r: &Request) -> Result<Fault, OutOfMemory>
    ensures { IfOk result (λ fault. fault ≡ missing_variant r.now) }
{
    let mut wanted = Variations::empty(alloc);
    wanted.set(Axis::Target, r.want.target);
    wanted.set(Axis::Image, r.want.image);
    wanted.set(Axis::Link, r.want.link);
    let subject = label(alloc, &r.name, &wanted)?;
    Ok(Fault::on(alloc, FaultKind::MissingVariant, r.at, subject))
}

/// A module, if it is of the kind that the edge of a request leads to.
fn fitting(alloc: Global, mods: &[Module], r: &Request, m: usize) -> Result<usize, Refusal>
    ensures { Answers (λ m. m) result (fitting mods.now r.now m) }
{
    let Some(item) = mods.get(m) else {
        return Ok(m);
    };
    match wrong_kind(r.kind, item.kind) {
        None => Ok(m),
        Some(kind) => Err(Refusal::Bad(request_fault(alloc, kind, r)?)),
    }
}

fn module_for<P>(
    alloc: Global,
    directory: &Directory,
    mods: &[Module],
    g: &Graph<P>,
    r: &Request,
) -> Result<usize, Refusal>
    requires { IsDirectory mods.now g.now.nodes directory.now.names directory.now.nodes.items }
    ensures { Answers (λ m. m) result (module_for mods.now r.now) }
{
    match directory.module_named(&r.name) {
        Some(m) => fitting(alloc, mods, r, m as usize),
        None => {
            let fault = request_fault(alloc, FaultKind::MissingModule, r)?;
            Err(Refusal::Bad(fault))
        }
    }
}

/// The node of a request, by a directory.
pub fn resolve_by<P>(
    alloc: Global,
    directory: &Directory,
    mods: &[Module],
    g: &Graph<P>,
    r: &Request,
) -> Result<NodeId, Refusal>
    requires { IsDirectory mods.now g.now.nodes directory.now.names directory.now.nodes.items }
    ensures { Answers (λ n. n) result (resolved_node mods.now g.now.nodes r.now) }
{
    let m = module_for(alloc, directory, mods, g, r)?;
    match directory.node_for(mods, g, m, r.want) {
        Some(n) => Ok(n),
        None => Err(Refusal::Bad(missing_variant(alloc, r)?)),
    }
}

/// The node that a request is for: of the module that it names the least with the wanted variations.
///
/// Refusals in this order: no module has the name (21); the edge leads to another kind of module (22, 25); no node of
/// the module has the wanted variations (24). The modules are numbered anew at each call: for many requests there is
/// `apply`.
pub fn resolve<P>(
    alloc: Global,
    mods: &[Module],
    g: &Graph<P>,
    r: &Request,
) -> Result<NodeId, GraphError>
    requires few { length mods.now < 2 ^ 32 }
    requires may { MayRun (indices_in (length mods.now)) g.now.nodes }
    ensures { Answers (λ n. n) result (resolved_node mods.now g.now.nodes r.now) }
{
    let directory = Directory::new(alloc, mods, g)?;
    resolve_by(alloc, &directory, mods, g, r)
}

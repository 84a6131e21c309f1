ghost use Rattle.std.specs.Prelude.{◌≡◌, IfOk};
ghost use Rattle.build_parts.specs.Paths.{output_directory, object_path, link_variation, product_of};
ghost use Rattle.build_parts.specs.Paths.{product_suffix, role_of};
ghost use Rattle.build_parts.specs.Paths.{output_in, output_path, output_of, output_at};

use crate::line::concat;
use bp_faults::{NodeId, OutOfMemory, Text};
use bp_props::{Module, ModuleKind};
use module_graph::{Axis, Graph, Node, Variation, variant_name};
use module_rules::Record;
use std::alloc::Global;
use std::marker::Model;

/// What a module is to the build: it makes something, it gives files, or neither.
#[derive(Clone, Copy, Debug, PartialEq, Eq)]
pub enum Role {
    Makes,
    Gives,
    Neither,
}

/// What is made of objects.
#[derive(Clone, Copy, Debug, PartialEq, Eq)]
pub enum Product {
    Archive,
    SharedObject,
    Program,
}

/// What a module of that kind is to the build.
pub fn role_of(kind: ModuleKind) -> Role
    ensures { result ≡ role_of kind }
{
    match kind {
        ModuleKind::Filegroup => Role::Gives,
        ModuleKind::LibraryHeaders | ModuleKind::Defaults => Role::Neither,
        _ => Role::Makes,
    }
}

fn product_by(link: Variation) -> Product
    ensures { result ≡ product_of link }
{
    match link {
        Variation::Static => Product::Archive,
        Variation::Shared => Product::SharedObject,
        _ => Product::Program,
    }
}

/// What a node makes, by its link variation.
pub fn product_of(node: &Node<Record<'_>>) -> Product
    ensures { result ≡ product_of (link_variation node.now) }
{
    product_by(node.vars.get(Axis::Link))
}

// The end of the name of what is made. It stands in arrays beside names of modules, so it isn't said to be static.
fn suffix_of<'a>(product: Product) -> &'a str
    ensures { result.now ≡ product_suffix product }
{
    match product {
        Product::Archive => ".a",
        Product::SharedObject => ".so",
        Product::Program => "",
    }
}

/// The directory of the outputs of a node, by the parts of its path, so that a longer path is put together at once.
/// Contracts see it as its path.
#[derive(Debug, Drop)]
pub struct Directory<'a> {
    name: &'a Text,
    variant: Text,
}

impl<'a> Model for Directory<'a> {
    ghost use Rattle.std.specs.Prelude.{List, ℕ, ◌++◌, codes};

    ghost Value = { List ℕ };

    ghost view = { λ directory. codes "out/m/" ++ (directory.name.now ++ (codes "/" ++ directory.variant)) };
}

/// Where the outputs of a node stand.
pub fn directory_of<'a>(
    alloc: Global,
    module: &'a Module,
    node: &Node<Record<'_>>,
) -> Result<Directory<'a>, OutOfMemory>
    ensures { IfOk result (λ directory. directory ≡ output_directory «module».now node.now) }
{
    Ok(Directory {
        name: &module.name,
        variant: variant_name(alloc, &node.vars)?,
    })
}

/// The object that a source is compiled to.
pub fn object_path<'a>(
    alloc: Global,
    directory: &'a Directory<'a>,
    source: &'a Text,
) -> Result<Text, OutOfMemory>
    ensures { IfOk result (λ path. path ≡ object_path directory.now source.now) }
{
    let name = directory.name.as_str();
    let variant = directory.variant.as_str();
    let parts = ["out/m/", name, "/", variant, "/obj/", source.as_str(), ".o"];
    concat(alloc, &parts)
}

/// What a node makes in its directory: an archive, a shared object or a program.
pub fn output_in<'a>(
    alloc: Global,
    directory: &'a Directory<'a>,
    module: &'a Module,
    node: &Node<Record<'_>>,
) -> Result<Text, OutOfMemory>
    ensures { IfOk result (λ path. path ≡ output_in directory.now «module».now node.now) }
{
    let name = directory.name.as_str();
    let variant = directory.variant.as_str();
    let program = module.name.as_str();
    let suffix = suffix_of(product_of(node));
    let parts = ["out/m/", name, "/", variant, "/bin/", program, suffix];
    concat(alloc, &parts)
}

// What a node makes.
fn output_path(alloc: Global, module: &Module, node: &Node<Record<'_>>) -> Result<Text, OutOfMemory>
    ensures { IfOk result (λ path. path ≡ output_path «module».now node.now) }
{
    let directory = directory_of(alloc, module, node)?;
    output_in(alloc, &directory, module, node)
}

/// The output of a node, where it has one.
pub fn output_of(
    alloc: Global,
    module: &Module,
    node: &Node<Record<'_>>,
) -> Result<Option<Text>, OutOfMemory>
    ensures { IfOk result (λ path. path ≡ output_of «module».now node.now) }
{
    match role_of(module.kind) {
        Role::Makes => Ok(Some(output_path(alloc, module, node)?)),
        _ => Ok(None),
    }
}

/// The output of a node by its number, where there is such a node and it has one.
pub fn output_at(
    alloc: Global,
    modules: &[Module],
    graph: &Graph<Record<'_>>,
    n: NodeId,
) -> Result<Option<Text>, OutOfMemory>
    ensures { IfOk result (λ path. path ≡ output_at modules.now graph.now.nodes n.0) }
{
    let Some(node) = graph.nodes.as_slice().get(n.0 as usize) else {
        return Ok(None);
    };
    match modules.get(node.module.0 as usize) {
        Some(module) => output_of(alloc, module, node),
        None => Ok(None),
    }
}

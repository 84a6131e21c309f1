ghost use Rattle.std.specs.Prelude.{◌≡◌, ◌++◌, IfOk, OnOk, string_bytes};
ghost use Rattle.graph_nodes.specs.Inside.{name_with};
ghost use Rattle.graph_nodes.specs.Names.{spelling, variant_name_of, label_of, name_at};

use crate::{Variation, Variations};
use bp_faults::{OutOfMemory, Text};
use std::alloc::Global;

/// The bytes for which a variant's name has room at first.
const COMMON_LEN: usize = 32;

/// Adds the spelling of a variation.
fn push_spelling(alloc: Global, name: &mut String, variation: Variation) -> Result<(), OutOfMemory>
    ensures { OnOk result (string_bytes name.new ≡ string_bytes name.old ++ spelling variation) }
{
    match variation {
        Variation::Empty => {}
        Variation::Target(target) => name.push_str(target.name())?,
        Variation::Common => name.push_str("common")?,
        Variation::Vendor => name.push_str("vendor")?,
        Variation::Recovery => name.push_str("recovery")?,
        Variation::Static => name.push_str("static")?,
        Variation::Shared => name.push_str("shared")?,
        Variation::PerSource(source) => name.push_str(&format!(in alloc; "t{source}")?)?,
        Variation::Asan => name.push_str("asan")?,
    }
    Ok(())
}

/// Adds a variation to a variant's name, behind `_` where others stand there, unless it is empty.
fn append(alloc: Global, name: &mut String, variation: Variation) -> Result<(), OutOfMemory>
    ensures { OnOk result (string_bytes name.new ≡ name_with (string_bytes name.old) (spelling variation)) }
{
    if variation == Variation::Empty {
        return Ok(());
    }
    if !name.is_empty() {
        name.push_str("_")?;
    }
    push_spelling(alloc, name, variation)
}

/// How a variation is spelled. The empty one has the empty spelling.
pub fn variation_name(alloc: Global, variation: Variation) -> Result<Text, OutOfMemory>
    ensures { IfOk result (λ name. name ≡ spelling variation) }
{
    let mut name = String::new(alloc);
    push_spelling(alloc, &mut name, variation)?;
    Ok(Text::new(name))
}

/// The name of a variant: the spellings of its variations, joined by `_`.
pub fn variant_name(alloc: Global, variations: &Variations) -> Result<Text, OutOfMemory>
    ensures { IfOk result (λ name. name ≡ variant_name_of variations.now) }
{
    let mut name = String::with_capacity(alloc, COMMON_LEN)?;
    for variation in variations.as_slice() {
        append(alloc, &mut name, *variation)?;
    }
    Ok(Text::new(name))
}

/// The label of a node: its module's name, and in braces the name of its variant.
pub fn label(alloc: Global, name: &Text, variations: &Variations) -> Result<Text, OutOfMemory>
    ensures { IfOk result (λ label. label ≡ label_of name.now variations.now) }
{
    let variant = variant_name(alloc, variations)?;
    let mut label = String::from_str(alloc, name.as_str())?;
    if !variant.as_str().is_empty() {
        label.push_str("{")?;
        label.push_str(variant.as_str())?;
        label.push_str("}")?;
    }
    Ok(Text::new(label))
}

/// The name of a node in a list by node number, and the empty one beyond the list.
pub fn name_of(names: &[Text], n: usize) -> &str
    ensures { result.now ≡ name_at names.now n }
{
    match names.get(n) {
        Some(name) => name.as_str(),
        None => "",
    }
}

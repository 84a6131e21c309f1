ghost use Rattle.std.specs.Prelude.{◌≡◌, ◌↔◌, ◌++◌, map, IfOk, OnOk, IsSome, IfSome};
ghost use Rattle.std.specs.Map.{keys_of};
ghost use Rattle.bp_names.specs.Meaning.{IsSetOf};
ghost use Rattle.ninja_file.specs.Meaning.{AllDiffer};

use bp_faults::{OutOfMemory, Text};
use bp_names::NameSet;
use std::alloc::Global;

/// Adds texts to a list.
pub fn add_texts<'a>(list: &mut Vec<&'a str>, texts: &'a [Text]) -> Result<(), OutOfMemory>
    ensures { OnOk result (map (λ t. t.now) list.new.items ≡ map (λ t. t.now) list.old.items ++ texts.now) }
{
    for text in texts {
        list.push(text.as_str())?;
    }
    Ok(())
}

/// The keys of pairs.
pub fn keys<'a, V>(alloc: Global, pairs: &'a [(Text, V)]) -> Result<Vec<&'a str>, OutOfMemory>
    ensures { IfOk result (λ keys. map (λ t. t.now) keys.items ≡ keys_of pairs.now) }
{
    let mut keys = Vec::new(alloc);
    for (key, _) in pairs {
        keys.push(key.as_str())?;
    }
    Ok(keys)
}

/// The texts of a list as a set, where any two of them differ.
pub fn set_of<'a>(alloc: Global, texts: &[&'a str]) -> Result<Option<NameSet<'a>>, OutOfMemory>
    ensures differ { IfOk result (λ set. IsSome set ↔ AllDiffer (map (λ t. t.now) texts.now)) }
    ensures texts { IfOk result (λ set. IfSome set (IsSetOf (map (λ t. t.now) texts.now))) }
{
    let mut set = NameSet::new(alloc);
    for text in texts {
        if !set.learn(text)? {
            return Ok(None);
        }
    }
    Ok(Some(set))
}

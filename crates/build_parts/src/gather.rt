ghost use Rattle.std.specs.Prelude.{◌≡◌, [], ◌∷◌, ◌++◌, IfOk, OnOk, map};
ghost use Rattle.std.specs.List.{cons_option};
ghost use Rattle.bp_names.specs.Meaning.{Learns};
ghost use Rattle.build_parts.specs.Kept.{new_one, kept_first};

use bp_faults::{OutOfMemory, Seq, Text};
use bp_names::NameSet;
use bp_names::laws::sets_grow_with_lists;
use smallvec::SmallVec;
use std::alloc::Global;

/// Puts an item at the end, where there is one.
pub fn push_some<T: Drop>(items: &mut Vec<T>, item: Option<T>) -> Result<(), OutOfMemory>
    ensures { OnOk result (items.new.items ≡ items.old.items ++ cons_option item []) }
{
    if let Some(item) = item {
        items.push(item)?;
    }
    Ok(())
}

/// A list of one text.
pub fn one(alloc: Global, text: Text) -> Result<Seq<Text>, OutOfMemory>
    ensures { IfOk result (λ texts. texts ≡ text ∷ []) }
{
    Ok(Seq::new(Vec::from_array(alloc, [text])?))
}

/// Texts that are seen through references. A few take no memory.
pub type Views<'a> = SmallVec<&'a str, 4>;

/// Puts texts at the end, without a copy.
pub fn add_texts<'a>(list: &mut Views<'a>, texts: &'a [Text]) -> Result<(), OutOfMemory>
    ensures { OnOk result (map (λ t. t.now) list.new.items ≡ map (λ t. t.now) list.old.items ++ texts.now) }
{
    list.reserve(texts.len())?;
    for text in texts {
        list.push(text.as_str())?;
    }
    Ok(())
}

// Keeps a text that wasn't seen before.
fn keep<'a>(
    alloc: Global,
    seen: &mut NameSet<'a>,
    kept: &mut Vec<Text>,
    text: &'a str,
) -> Result<(), OutOfMemory>
    ensures learned { OnOk result (Learns seen.old text.now seen.new) }
    ensures kept { OnOk result (kept.new.items ≡ kept.old.items ++ new_one seen.old text.now) }
{
    if seen.learn(text)? {
        kept.push(Text::from_str(alloc, text)?)?;
    }
    Ok(())
}

// Of what repeats, the first is kept, by a set of what was seen.
fn keep_unseen(alloc: Global, texts: &[&str]) -> Result<Vec<Text>, OutOfMemory>
    ensures { IfOk result (λ kept. kept.items ≡ kept_first (map (λ t. t.now) texts.now)) }
{
    sets_grow_with_lists();
    let mut seen = NameSet::new(alloc);
    let mut kept = Vec::with_capacity(alloc, texts.len())?;
    for text in texts {
        keep(alloc, &mut seen, &mut kept, text)?;
    }
    Ok(kept)
}

/// Of what repeats, the first is kept.
pub fn keep_first(alloc: Global, texts: &[&str]) -> Result<Vec<Text>, OutOfMemory>
    ensures { IfOk result (λ kept. kept.items ≡ kept_first (map (λ t. t.now) texts.now)) }
{
    match texts {
        [] => Ok(Vec::new(alloc)),
        [text] => Ok(one(alloc, Text::from_str(alloc, text)?)?.into_vec()),
        _ => keep_unseen(alloc, texts),
    }
}

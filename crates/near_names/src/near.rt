ghost use Rattle.std.specs.Prelude.{◌≡◌, IfOk, chars, filter, length};
ghost use Rattle.near_names.specs.Nearest.{distance, is_near_at, reach, nearest_names};
ghost use Rattle.near_names.specs.Least.{least_reach, is_within};

use bp_faults::{OutOfMemory, Text};
use std::alloc::Global;
use strsim::levenshtein;

/// No name is near at so many edits.
const FAR: usize = 4;

/// How many characters a text has.
pub fn char_count(text: &str) -> usize
    ensures { result ≡ length (chars text.now) }
{
    text.chars().count()
}

/// How many edits lead from a word to another.
fn distance(alloc: Global, word: &str, other: &str) -> Result<usize, OutOfMemory>
    ensures { IfOk result (λ edits. edits ≡ distance word.now other.now) }
{
    let edits = levenshtein(alloc, word, other)?;
    Ok(edits)
}

// Whether a name at so many edits is near to a word of so many characters.
fn is_near_at(edits: usize, count: usize) -> bool
    ensures { result ≡ is_near_at edits count }
{
    0 < edits && edits < FAR && 2 * edits < count
}

// How far a name is from a word: the edits between them where it is near, else `FAR`.
fn reach(alloc: Global, word: &str, name: &str) -> Result<usize, OutOfMemory>
    ensures { IfOk result (λ edits. edits ≡ reach word.now name.now) }
{
    let edits = distance(alloc, word, name)?;
    if is_near_at(edits, char_count(word)) {
        Ok(edits)
    } else {
        Ok(FAR)
    }
}

// The least reach of some names, and `FAR` where none is near.
fn least_reach(alloc: Global, known: &[Text], word: &str) -> Result<usize, OutOfMemory>
    ensures { IfOk result (λ least. least ≡ least_reach word.now known.now) }
{
    let mut least = FAR;
    for name in known {
        let edits = reach(alloc, word, name.as_str())?;
        least = least.min(edits);
    }
    Ok(least)
}

// The near names that are no farther than so many edits.
fn within_reach(
    alloc: Global,
    known: &[Text],
    word: &str,
    least: usize,
) -> Result<Vec<Text>, OutOfMemory>
    ensures { IfOk result (λ names. names.items ≡ filter (is_within word.now least) known.now) }
{
    let mut names: Vec<Text> = Vec::new(alloc);
    for name in known {
        let edits = reach(alloc, word, name.as_str())?;
        if edits < FAR && edits <= least {
            names.push(name.copy(alloc)?)?;
        }
    }
    Ok(names)
}

/// The known names that are nearest to a word, at most three, in their order.
pub fn nearest(alloc: Global, known: &[Text], word: &str) -> Result<Vec<Text>, OutOfMemory>
    ensures { IfOk result (λ names. names.items ≡ nearest_names known.now word.now) }
{
    let least = least_reach(alloc, known, word)?;
    let mut names = within_reach(alloc, known, word, least)?;
    names.truncate(3);
    Ok(names)
}

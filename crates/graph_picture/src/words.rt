ghost use Rattle.std.specs.Prelude.{IfOk};
ghost use Rattle.graph_picture.specs.Words.{AsksNear, WordsMean};

use crate::Focus;
use crate::number::number_of;
use bp_faults::{OutOfMemory, Text};
use std::alloc::Global;

/// What the words of a command line ask for.
#[derive(Debug, Drop)]
pub enum Asked {
    Whole,
    Near(Focus),
    Wrong,
}

/// The depth where no word says one. No text has as many edges.
pub const ANY_DEPTH: u32 = 4_294_967_295;

/// A module and a depth. A word that begins with `-` is no module.
fn near(alloc: Global, owner: &Text, depth: u32) -> Result<Asked, OutOfMemory>
    ensures { IfOk result (λ asked. AsksNear owner.now depth asked) }
{
    if owner.as_str().as_bytes().first() == Some(&b'-') {
        return Ok(Asked::Wrong);
    }
    Ok(Asked::Near(Focus {
        module: owner.copy(alloc)?,
        depth,
    }))
}

/// What the words ask for: all, or what is near a module, to a depth that may be given.
pub fn asked_by(alloc: Global, words: &[Text]) -> Result<Asked, OutOfMemory>
    ensures { IfOk result (λ asked. WordsMean words.now asked) }
{
    match words {
        [] => Ok(Asked::Whole),
        [owner] => near(alloc, owner, ANY_DEPTH),
        [owner, depth] => match number_of(alloc, depth.as_str())? {
            Some(depth) => near(alloc, owner, depth),
            None => Ok(Asked::Wrong),
        },
        _ => Ok(Asked::Wrong),
    }
}

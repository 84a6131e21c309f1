ghost use Rattle.std.specs.Prelude.{◌<◌, ◌^◌, IfOk, length, OnOk, MatchOption};
ghost use Rattle.std.specs.Option.{option_copied};
ghost use Rattle.graph_picture.specs.Lines.{IsGraph};
ghost use Rattle.graph_picture.specs.Picture.{MarksMean, PictureMeans};

use crate::draw::drawn;
use crate::focus::marks_of;
use crate::read::read_graph;
use crate::{Focus, ReadError, Variant};
use bp_faults::OutOfMemory as Want;
use std::alloc::Global;

/// Why there is no picture.
#[derive(Debug, Drop)]
pub enum PictureError {
    /// The line of this number, from 1, isn't one of a graph.
    BadLine(u64),
    /// No variant is of the module in focus.
    NoModule,
    OutOfMemory,
}

impl From<Want> for PictureError {
    ghost use Rattle.std.specs.Prelude.{◌≡◌};
    ghost use Rattle.graph_picture.specs.declared.picture.PictureError.TheVariants.{OutOfMemory as NoMemory};

    ghost from_gives = { λ _ error. error ≡ NoMemory };

    fn from(_: Want) -> Self {
        PictureError::OutOfMemory
    }
}

/// The marks of the variants that are shown, or none where no variant is of the module in focus.
fn marks_for(
    alloc: Global,
    variants: &[Variant],
    focus: Option<&Focus>,
) -> Result<Option<Vec<bool>>, Want>
    requires { IsGraph variants.now }
    ensures { IfOk result (λ marks. MarksMean variants.now (option_copied focus.entry) marks) }
{
    match focus {
        Some(focus) => marks_of(alloc, variants, focus),
        None => Ok(Some(vec![in alloc; true; variants.len()]?)),
    }
}

/// The picture of the graph of which some bytes are the text, or of what a focus keeps of it.
pub fn picture(alloc: Global, bytes: &[u8], focus: Option<&Focus>) -> Result<Vec<u8>, PictureError>
    requires { length bytes.now < 2 ^ 32 }
    ensures { PictureMeans bytes.now (option_copied focus.entry) result }
{
    let variants = match read_graph(alloc, bytes) {
        Ok(variants) => variants,
        Err(ReadError::BadLine(line)) => return Err(PictureError::BadLine(line)),
        Err(ReadError::OutOfMemory) => return Err(PictureError::OutOfMemory),
    };
    match marks_for(alloc, &variants, focus)? {
        Some(marks) => Ok(drawn(alloc, &variants, &marks)?),
        None => Err(PictureError::NoModule),
    }
}

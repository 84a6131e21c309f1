ghost use Rattle.std.specs.Prelude.{◌<◌, ◌≤◌};
ghost use Rattle.bp_load.specs.Halves.{JoinMeans};

use crate::LoadError;

/// The part of an amount that falls to some of the workers.
pub fn share(amount: usize, some: u32, workers: u32) -> usize
    requires some { some ≤ workers }
    requires workers { 0 < workers }
    ensures { result ≤ amount }
{
    amount / workers as usize * some as usize
}

/// What was made of two halves of a list, in order, or the first of their refusals.
pub fn joined<T: Drop>(
    front: Result<Vec<T>, LoadError>,
    back: Result<Vec<T>, LoadError>,
) -> Result<Vec<T>, LoadError>
    ensures { JoinMeans front back result }
{
    let mut all = front?;
    let mut rest = back?;
    if all.is_empty() {
        return Ok(rest);
    }
    all.append(&mut rest)?;
    Ok(all)
}

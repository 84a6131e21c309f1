ghost use Rattle.std.specs.Prelude.{◌≡◌, ◌≤◌, ◌<◌, ◌++◌, IsTrue, length};

use crate::weights::GROUP;
use ninja_file::Statement;

/// There is at most one worker for each such weight, which is some 600 KB of text.
const LEAST: usize = 1 << 14;

/// How many bytes most paths and variables take at most, with what stands between them.
const USUAL: usize = 64;

/// Statements one after another, with the weights of their groups and of all. A text that begins with theirs makes
/// room for some bytes.
#[derive(Clone, Copy, Debug)]
pub struct Part<'a> {
    pub statements: &'a [Statement],
    pub weights: &'a [usize],
    pub weight: usize,
    pub room: usize,
}

// How many of the last weights are within a share, and their sum. A group is where its middle is.
fn last_within(weights: &[usize], share: usize) -> (usize, usize)
    ensures { result.0 ≤ length weights.now }
{
    let mut behind = 0usize;
    for (count, weight) in weights.iter().rev().enumerate() {
        if behind.saturating_add(*weight / 2) > share {
            return (count, behind);
        }
        behind = behind.saturating_add(*weight);
    }
    (weights.len(), behind)
}

impl<'a> Part<'a> {
    /// All of some statements.
    pub fn new(statements: &'a [Statement], weights: &'a [usize]) -> Part<'a>
        ensures { result.statements.now ≡ statements.now }
    {
        let mut weight = 0usize;
        for group in weights {
            weight = weight.saturating_add(*group);
        }
        Part {
            statements,
            weights,
            weight,
            room: weight.saturating_mul(USUAL),
        }
    }

    /// How many of some workers should print it.
    pub fn workers(&self, most: u32) -> u32 {
        match u32::try_from(self.weight / LEAST) {
            Ok(useful) => most.min(useful.saturating_add(1)),
            Err(_) => most,
        }
    }

    /// Two parts, the second for one of some workers, and the first for the others, of whom one has to put the second
    /// behind it. So the second has a half of the weight for 2 workers, three eighths for 3 and three tenths for 4.
    pub fn cut(&self, workers: u32) -> (Part<'a>, Part<'a>)
        requires { 1 < workers }
        ensures { self.now.statements.now ≡ result.0.statements.now ++ result.1.statements.now }
    {
        let share = (self.weight / (2 * workers as usize + 2)).saturating_mul(3);
        let (count, weight) = last_within(self.weights, share);
        let (first, last) = self.weights.split_at(self.weights.len() - count);
        let at = first.len().saturating_mul(GROUP).min(self.statements.len());
        let (front, back) = self.statements.split_at(at);
        (
            Part {
                statements: front,
                weights: first,
                weight: self.weight.saturating_sub(weight),
                room: self.room,
            },
            Part {
                statements: back,
                weights: last,
                weight,
                room: weight.saturating_mul(USUAL),
            },
        )
    }
}

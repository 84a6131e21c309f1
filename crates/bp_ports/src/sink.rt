ghost use Rattle.std.specs.Prelude.{ℕ, List, Option};
ghost use Rattle.bp_ports.specs.Causes.{HasCause};

use crate::Failed;

/// Takes bytes, one run after another.
pub trait Sink {
    ghost use Rattle.bp_ports.specs.Files.{WhereTold, PutLeaves};

    /// The bytes so far, where the sink tells them.
    ghost bytes: { Self → Option (List ℕ) };

    /// How often a put has failed. It never falls.
    ghost faults: { Self → ℕ };

    /// Appends these bytes.
    fn put(&mut self, more: &[u8]) -> Result<(), Failed>
        ensures contents { WhereTold (PutLeaves more.now result) (bytes self.old) (bytes self.new) }
        ensures cause { HasCause (faults self.old) (faults self.new) result };
}

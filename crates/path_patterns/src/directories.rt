ghost use Rattle.std.specs.Prelude.{◌≡◌, ℕ, List, Option, IfSome};
ghost use Rattle.bp_ports.specs.Causes.{HasCauseAt};

use bp_faults::Text;
use dir_entries::DirEntry;
use thiserror::Error;

/// Why a directory isn't read.
#[derive(Clone, Copy, Debug, Error, PartialEq, Eq)]
pub enum DirError {
    #[error("too many entries")]
    TooMany,
    #[error("cannot read")]
    Failed,
    #[error("out of memory")]
    OutOfMemory,
}

/// Directories that are read one at a time.
pub trait Directories {
    ghost use Rattle.dir_entries.specs.declared.entry.DirEntry.{DirEntry};
    ghost use Rattle.path_patterns.specs.Reads.{DirGives};

    /// The held paths, where they are told.
    ghost held: { Self → Option (List (List ℕ)) };

    /// How often a directory couldn't be read. It never falls.
    ghost faults: { Self → ℕ };

    /// The entries of the directory that was read last.
    ghost last: { Self → List DirEntry };

    /// What of an implementation stays the same over every reading, as the place that it reads from.
    ghost Kept: { Type 0 };

    ghost kept: { Self → Self.Kept };

    /// Whether it may be read. It stays so.
    ghost IsReady: { Self → Type 0 };

    /// Reads the entries of a directory. There are none where no held path lies below it.
    fn read(&mut self, dir: &Text) -> Result<(), DirError>
        requires ready { IsReady self.old }
        ensures gives { IfSome (held self.old) (λ held. DirGives held dir.now (last self.new) result) }
        ensures held { held self.new ≡ held self.old }
        ensures cause { HasCauseAt DirError.Failed (faults self.old) (faults self.new) result }
        ensures kept { Self.kept self.new ≡ Self.kept self.old }
        ensures ready { IsReady self.new };

    /// The entries of the directory that was read last.
    fn entries(&self) -> &[DirEntry]
        ensures { result.now ≡ last self.now };
}

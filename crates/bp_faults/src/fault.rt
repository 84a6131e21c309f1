ghost use Rattle.std.specs.Prelude.{◌≡◌, [], List, ℕ};
ghost use Rattle.bp_faults.specs.Faults.{fault_at, fault_on};

use crate::{FaultKind, Place, Seq, Text};
use std::alloc::Global;

/// A fault of the input: its kind, its place and its subject.
///
/// The chain lists the labels of a dependency cycle, and is empty in every other fault.
#[derive(Debug, Drop, PartialEq)]
pub struct Fault {
    pub kind: FaultKind,
    pub at: Place,
    pub subject: Text,
    pub chain: Seq<Text>,
}

impl Fault {
    ghost use Rattle.bp_faults.specs.Faults.{fault_at, fault_on};

    /// A fault without a subject. It takes no memory.
    pub fn at(alloc: Global, kind: FaultKind, at: Place) -> Fault
        ensures { result ≡ fault_at kind at }
    {
        Fault::on(alloc, kind, at, Text::new(String::new(alloc)))
    }

    /// A fault of a subject. It takes no memory.
    pub fn on(alloc: Global, kind: FaultKind, at: Place, subject: Text) -> Fault
        ensures { result ≡ fault_on kind at subject }
    {
        Fault {
            kind,
            at,
            subject,
            chain: Seq::new(Vec::new(alloc)),
        }
    }
}

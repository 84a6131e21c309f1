//! To which modules, and to groups or not, a property is offered.
ghost use Rattle.std.specs.Prelude.{◌≡◌};
ghost use Rattle.property_tables.specs.Inside.{is_wanted, offered_of};
ghost use Rattle.property_tables.specs.Tables.{has_kind};

use crate::Row;
use bp_props::ModuleKind;

/// Some kinds of module.
#[derive(Clone, Copy, Debug)]
pub(crate) enum Kinds {
    Every,
    Cc,
    Filegroup,
    BothLinks,
    PlugIns,
    Tests,
}

impl Kinds {
    pub(crate) fn have(self, kind: ModuleKind) -> bool
        ensures { result ≡ has_kind self kind }
    {
        match self {
            Kinds::Every => true,
            Kinds::Cc => !matches!(kind, ModuleKind::Filegroup),
            Kinds::Filegroup => matches!(kind, ModuleKind::Filegroup),
            Kinds::BothLinks => matches!(kind, ModuleKind::Library | ModuleKind::Defaults),
            Kinds::PlugIns => matches!(
                kind,
                ModuleKind::Library | ModuleKind::LibraryShared | ModuleKind::Defaults
            ),
            Kinds::Tests => matches!(kind, ModuleKind::Test | ModuleKind::Defaults),
        }
    }
}

/// A row of a property, the kinds of module that have it, and whether groups may hold it.
#[derive(Clone, Copy, Debug)]
pub(crate) struct Offer {
    pub(crate) row: Row,
    pub(crate) kinds: Kinds,
    pub(crate) in_groups: bool,
}

/// Which properties of some rows are meant.
#[derive(Clone, Copy, Debug)]
pub(crate) enum Wanted {
    All,
    Kind(ModuleKind),
    Groups,
}

impl Wanted {
    pub(crate) fn wants(self, offer: &Offer) -> bool
        ensures { result ≡ is_wanted self (offered_of offer.now) }
    {
        match self {
            Wanted::All => true,
            Wanted::Kind(kind) => offer.kinds.have(kind),
            Wanted::Groups => offer.in_groups,
        }
    }
}

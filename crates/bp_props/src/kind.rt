ghost use Rattle.std.specs.Prelude.{◌≡◌};

use crate::{Field, GroupId};

/// What a module is, by its type.
#[derive(Clone, Copy, Debug, PartialEq, Eq)]
pub enum ModuleKind {
    Binary,
    Library,
    LibraryStatic,
    LibraryShared,
    LibraryHeaders,
    Test,
    Defaults,
    Filegroup,
}

impl ModuleKind {
    ghost use Rattle.bp_props.specs.Kinds.{has_field};

    /// Whether the property table of the kind has the field.
    pub fn has(self, field: Field) -> bool
        ensures { result ≡ has_field self field }
    {
        match field {
            Field::Name | Field::Enabled | Field::Srcs => true,
            Field::Group(GroupId::Static | GroupId::Shared) => {
                matches!(self, ModuleKind::Library | ModuleKind::Defaults)
            }
            Field::PluginOf => matches!(
                self,
                ModuleKind::Library | ModuleKind::LibraryShared | ModuleKind::Defaults
            ),
            Field::TestPerSrc | Field::DataBins => {
                matches!(self, ModuleKind::Test | ModuleKind::Defaults)
            }
            _ => !matches!(self, ModuleKind::Filegroup),
        }
    }
}

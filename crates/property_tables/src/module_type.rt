ghost use Rattle.std.specs.Prelude.{◌≡◌, map};
ghost use Rattle.std.specs.Str.{bytes_eq};
ghost use Rattle.std.specs.Map.{lookup};
ghost use Rattle.property_tables.specs.Meaning.{types, is_dropped as dropped};

use bp_props::ModuleKind;

/// Whether the modules of a type are dropped.
pub(crate) fn is_dropped(name: &str) -> bool
    ensures { result ≡ dropped name.now }
{
    matches!(name, "package" | "license")
}

/// The types that are built, with the kinds of their modules.
macro_rules! module_types {
    ($then:ident $($args:tt)*) => {
        $then!(
            [$($args)*]
            ("cc_binary" Binary)
            ("cc_library" Library)
            ("cc_library_static" LibraryStatic)
            ("cc_library_shared" LibraryShared)
            ("cc_library_headers" LibraryHeaders)
            ("cc_test" Test)
            ("cc_defaults" Defaults)
            ("filegroup" Filegroup)
        )
    };
}

macro_rules! kind_by {
    ([$name:expr] $(($type:literal $kind:ident))*) => {
        match $name {
            $($type => Some(ModuleKind::$kind),)*
            _ => None,
        }
    };
}

macro_rules! names {
    ([] $(($type:literal $kind:ident))*) => {
        [$($type),*]
    };
}

const TYPES: [&str; 8] = module_types!(names);

/// The names of the types that are built.
pub fn type_names() -> &'static [&'static str]
    ensures { map (λ name. name.now) result.now ≡ map (λ t. t.0) types }
{
    &TYPES
}

/// What the modules of a type are, where it is built.
pub(crate) fn kind_of(name: &str) -> Option<ModuleKind>
    ensures { result ≡ lookup (bytes_eq name.now) types }
{
    module_types!(kind_by name)
}

//! The bodies that go over all fields of a table.

/// The lists that a group may hold, one after the other.
macro_rules! group_lists {
    ($then:ident $($args:tt)*) => {{
        $crate::group_sources!($then $($args)*);
        $crate::group_flags!($then $($args)*);
        $crate::group_dirs!($then $($args)*);
        $crate::group_names!($then $($args)*);
    }};
}

/// The scalars that a module's record alone has and that are merged, one after the other. The one that isn't
/// is `name`.
macro_rules! module_scalars {
    ($then:ident $($args:tt)*) => {{
        $then!([$($args)*] (compile_multilib CompileMultilib));
        $crate::module_truths!($then $($args)*);
        $then!([$($args)*] (min_sdk_version MinSdkVersion));
    }};
}

/// Makes each list anew with the other's items behind, then does what follows, and last puts the new lists in place. So
/// where memory runs out nothing has changed.
macro_rules! merge_lists {
    ([$record:expr, $alloc:expr, $other:expr, $then:expr] $(($name:ident $field:ident))*) => {{
        $(let $name = $record.$name.merged($alloc, &$other.$name)?;)*
        $then;
        $($record.$name.replace($name);)*
    }};
}

macro_rules! copy_lists {
    ([$record:expr, $alloc:expr, $other:expr] $(($name:ident $field:ident))*) => {{
        $($record.$name = $other.$name.copy($alloc)?;)*
    }};
}

macro_rules! copy_scalars {
    ([$record:expr, $other:expr] $(($name:ident $field:ident))*) => {{
        $($record.$name = $other.$name;)*
    }};
}

macro_rules! merge_scalars {
    ([$record:expr, $other:expr, $winner:expr] $(($name:ident $field:ident))*) => {{
        $($record.$name = $winner.of(&$record.$name, &$other.$name);)*
    }};
}

macro_rules! keep_lists {
    ([$record:expr, $kind:expr] $(($name:ident $field:ident))*) => {{
        $($record.$name.keep_if($kind.has(Field::$field));)*
    }};
}

macro_rules! keep_scalars {
    ([$record:expr, $kind:expr] $(($name:ident $field:ident))*) => {{
        $(keep_scalar(&mut $record.$name, $kind.has(Field::$field));)*
    }};
}

/// Whether each field of a table is the same in two records.
macro_rules! same_fields {
    ([$record:expr, $other:expr] $(($name:ident $field:ident))*) => {
        $($record.$name.same(&$other.$name))&&*
    };
}

pub(crate) use copy_lists;
pub(crate) use copy_scalars;
pub(crate) use group_lists;
pub(crate) use keep_lists;
pub(crate) use keep_scalars;
pub(crate) use merge_lists;
pub(crate) use merge_scalars;
pub(crate) use module_scalars;
pub(crate) use same_fields;

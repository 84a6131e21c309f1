//! The fields of a group and of a record are set here, each under its own name.
ghost use Rattle.std.specs.Prelude.{◌≡◌, Some};
ghost use Rattle.property_values.specs.declared.fit.Fit.TheVariants as V;
ghost use Rattle.property_values.specs.Fits.{group_set, props_set};

use crate::fit::Fit;
use bp_faults::{Item, Path, Text};
use bp_props::{
    Field, Given, GroupProps, Listed, Multi, Props, Source, group_dirs, group_flags, group_names,
    group_sources, group_truths, module_names, module_truths,
};

/// Sets the field that is meant, or does what is left to do where it isn't in the table.
macro_rules! set {
    ([$record:expr, $meant:expr, $value:expr, $else:expr] $(($name:ident $field:ident))*) => {
        match $meant {
            $(Field::$field => $record.$name = $value,)*
            _ => $else,
        }
    };
}

fn set_truth(group: &mut GroupProps, field: Field, truth: Given<bool>)
    ensures { group.new ≡ group_set (Some field) (V.Truth truth) group.old }
{
    group_truths!(set group, field, Some(truth), {})
}

fn set_names(group: &mut GroupProps, field: Field, names: Listed<Item>)
    ensures { group.new ≡ group_set (Some field) (V.Names names) group.old }
{
    group_names!(set group, field, names, {})
}

fn set_flags(group: &mut GroupProps, field: Field, flags: Listed<Text>)
    ensures { group.new ≡ group_set (Some field) (V.Flags flags) group.old }
{
    group_flags!(set group, field, flags, {})
}

fn set_sources(group: &mut GroupProps, field: Field, sources: Listed<Source>)
    ensures { group.new ≡ group_set (Some field) (V.Sources sources) group.old }
{
    group_sources!(set group, field, sources, {})
}

fn set_dirs(group: &mut GroupProps, field: Field, dirs: Listed<Path>)
    ensures { group.new ≡ group_set (Some field) (V.Dirs dirs) group.old }
{
    group_dirs!(set group, field, dirs, {})
}

fn set_group_field(group: &mut GroupProps, field: Field, fit: Fit)
    ensures { group.new ≡ group_set (Some field) fit group.old }
{
    match fit {
        Fit::Truth(truth) => set_truth(group, field, truth),
        Fit::Flags(flags) => set_flags(group, field, flags),
        Fit::Names(names) => set_names(group, field, names),
        Fit::Sources(sources) => set_sources(group, field, sources),
        Fit::Dirs(dirs) => set_dirs(group, field, dirs),
        Fit::Word(_) => {}
        Fit::Multi(_) => {}
        Fit::Level(_) => {}
        Fit::Unset => {}
    }
}

/// Sets the field of a group that a property names.
pub fn set_group(group: &mut GroupProps, effect: Option<Field>, fit: Fit)
    ensures { group.new ≡ group_set effect fit group.old }
{
    if let Some(field) = effect {
        set_group_field(group, field, fit);
    }
}

fn set_props_truth(props: &mut Props, field: Field, truth: Given<bool>)
    ensures { props.new ≡ props_set (Some field) (V.Truth truth) props.old }
{
    module_truths!(set props, field, Some(truth), set_truth(&mut props.base, field, truth))
}

fn set_props_names(props: &mut Props, field: Field, names: Listed<Item>)
    ensures { props.new ≡ props_set (Some field) (V.Names names) props.old }
{
    match field {
        Field::Defaults => props.defaults = names,
        _ => module_names!(set props, field, names, set_names(&mut props.base, field, names)),
    }
}

fn set_props_word(props: &mut Props, field: Field, word: Given<Text>)
    ensures { props.new ≡ props_set (Some field) (V.Word word) props.old }
{
    if field == Field::Name {
        props.name = Some(word);
    }
}

fn set_props_multi(props: &mut Props, field: Field, multi: Given<Multi>)
    ensures { props.new ≡ props_set (Some field) (V.Multi multi) props.old }
{
    if field == Field::CompileMultilib {
        props.compile_multilib = Some(multi);
    }
}

fn set_props_level(props: &mut Props, field: Field, level: Given<u32>)
    ensures { props.new ≡ props_set (Some field) (V.Level level) props.old }
{
    if field == Field::MinSdkVersion {
        props.min_sdk_version = Some(level);
    }
}

fn set_props_field(props: &mut Props, field: Field, fit: Fit)
    ensures { props.new ≡ props_set (Some field) fit props.old }
{
    match fit {
        Fit::Truth(truth) => set_props_truth(props, field, truth),
        Fit::Word(word) => set_props_word(props, field, word),
        Fit::Names(names) => set_props_names(props, field, names),
        Fit::Multi(multi) => set_props_multi(props, field, multi),
        Fit::Level(level) => set_props_level(props, field, level),
        Fit::Flags(flags) => set_flags(&mut props.base, field, flags),
        Fit::Dirs(dirs) => set_dirs(&mut props.base, field, dirs),
        Fit::Sources(sources) => set_sources(&mut props.base, field, sources),
        Fit::Unset => {}
    }
}

/// Sets the field of a record, or of its own group, that a property names.
pub fn set_props(props: &mut Props, effect: Option<Field>, fit: Fit)
    ensures { props.new ≡ props_set effect fit props.old }
{
    if let Some(field) = effect {
        set_props_field(props, field, fit);
    }
}

use bp_props::Field;

/// What a property's value may be.
#[derive(Clone, Copy, Debug, PartialEq, Eq)]
pub enum PropKind {
    Bool,
    Word,
    Words,
    Flags,
    Names,
    Paths,
    Dirs,
    Multi,
    Level,
    Group,
}

/// A property of a table. `effect` is the field that it sets, and none where it has no effect.
#[derive(Clone, Copy, Debug)]
pub struct Row {
    pub name: &'static str,
    pub kind: PropKind,
    pub effect: Option<Field>,
}

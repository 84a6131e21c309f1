use bp_faults::{Place, Text};

/// A file: its number, which is 0 where it has no token but comments, and its definitions.
#[derive(Drop)]
pub struct FileTree {
    pub file: u32,
    pub defs: Vec<Def>,
}

/// A definition. It stands where its first token does.
#[derive(Drop)]
pub enum Def {
    /// `name = value`
    Assign {
        name: Text,
        at: Place,
        value: Expr,
    },
    /// `name += value`
    Extend {
        name: Text,
        at: Place,
        value: Expr,
    },
    /// `kind { .. }`
    Module {
        kind: Text,
        at: Place,
        body: MapExpr,
    },
}

/// An expression. It stands where its first token does.
#[cycle(ast)]
#[derive(Drop)]
pub enum Expr {
    Bool(Place, bool),
    Int(Place, i64),
    Str(Place, Text),
    Name(Place, Text),
    List(Place, Vec<Expr>),
    Map(MapExpr),
    /// The first term, and each further one with the place of the `+` before it.
    Sum(Box<Expr>, Vec<(Place, Expr)>),
}

/// A map literal. It stands where its brace does.
#[cycle(ast)]
#[derive(Drop)]
pub struct MapExpr {
    pub at: Place,
    pub entries: Vec<EntryExpr>,
}

/// `name: value`. It stands where its name does.
#[cycle(ast)]
#[derive(Drop)]
pub struct EntryExpr {
    pub name: Text,
    pub at: Place,
    pub value: Expr,
}

use bp_faults::{Seq, Text};

/// A part of a rule's value: text as it is, or the value of a variable.
#[derive(Debug, Drop)]
pub enum Piece {
    Lit(Text),
    Var(Text),
}

/// How files are made from others. The bindings are keys, as `command`, with their values.
#[derive(Debug, Drop)]
pub struct NinjaRule {
    pub name: Text,
    pub bindings: Seq<(Text, Seq<Piece>)>,
}

/// A build statement: the outs are made by the rule from the ins and the implicit ins, after the
/// order-only ins. The variables are keys with their values.
#[derive(Debug, Drop)]
pub struct Statement {
    pub outs: Seq<Text>,
    pub rule: Text,
    pub ins: Seq<Text>,
    pub implicit: Seq<Text>,
    pub order_only: Seq<Text>,
    pub vars: Seq<(Text, Text)>,
}

/// A file for Ninja. The defaults are what is built where nothing is named.
#[derive(Debug, Drop)]
pub struct NinjaFile {
    pub rules: Seq<NinjaRule>,
    pub statements: Seq<Statement>,
    pub defaults: Seq<Text>,
}

use bp_faults::Place;

/// A punctuation mark.
#[derive(Clone, Copy, Debug, PartialEq, Eq)]
pub enum Punct {
    OpenBrace,
    CloseBrace,
    OpenBracket,
    CloseBracket,
    OpenParen,
    CloseParen,
    Colon,
    Comma,
    Equal,
    PlusEqual,
    Plus,
}

/// The forms of tokens. `docs/LANGUAGE.md` has them in words.
#[derive(Clone, Copy, Debug, PartialEq, Eq)]
pub enum TokenKind {
    Ident,
    Int,
    Quoted,
    Raw,
    Punct(Punct),
    LineComment,
    BlockComment,
}

/// A token: its text is the slice from byte `start` to byte `end`, and `place` is where it begins.
#[derive(Clone, Copy, Debug, PartialEq, Eq)]
pub struct Token {
    pub kind: TokenKind,
    pub start: u32,
    pub end: u32,
    pub place: Place,
}

ghost use Rattle.std.specs.Prelude.{◌≡◌};
ghost use Rattle.bp_parser.specs.Words.{is_comment};
ghost use Rattle.bp_format.specs.Kinds.{is_line_comment, is_ident, opens_list, closes_list, opens_map, closes_map};
ghost use Rattle.bp_format.specs.Kinds.{opens_call, closes_call, is_comma, is_colon, wants_value};

use bp_lexer::{Punct, TokenKind};

pub fn is_comment(kind: TokenKind) -> bool
    ensures { result ≡ is_comment kind }
{
    matches!(kind, TokenKind::LineComment | TokenKind::BlockComment)
}

pub fn is_line_comment(kind: TokenKind) -> bool
    ensures { result ≡ is_line_comment kind }
{
    matches!(kind, TokenKind::LineComment)
}

pub fn is_ident(kind: TokenKind) -> bool
    ensures { result ≡ is_ident kind }
{
    matches!(kind, TokenKind::Ident)
}

pub fn opens_list(kind: TokenKind) -> bool
    ensures { result ≡ opens_list kind }
{
    matches!(kind, TokenKind::Punct(Punct::OpenBracket))
}

pub fn closes_list(kind: TokenKind) -> bool
    ensures { result ≡ closes_list kind }
{
    matches!(kind, TokenKind::Punct(Punct::CloseBracket))
}

pub fn opens_map(kind: TokenKind) -> bool
    ensures { result ≡ opens_map kind }
{
    matches!(kind, TokenKind::Punct(Punct::OpenBrace))
}

pub fn closes_map(kind: TokenKind) -> bool
    ensures { result ≡ closes_map kind }
{
    matches!(kind, TokenKind::Punct(Punct::CloseBrace))
}

pub fn opens_call(kind: TokenKind) -> bool
    ensures { result ≡ opens_call kind }
{
    matches!(kind, TokenKind::Punct(Punct::OpenParen))
}

pub fn closes_call(kind: TokenKind) -> bool
    ensures { result ≡ closes_call kind }
{
    matches!(kind, TokenKind::Punct(Punct::CloseParen))
}

pub fn is_comma(kind: TokenKind) -> bool
    ensures { result ≡ is_comma kind }
{
    matches!(kind, TokenKind::Punct(Punct::Comma))
}

pub fn is_colon(kind: TokenKind) -> bool
    ensures { result ≡ is_colon kind }
{
    matches!(kind, TokenKind::Punct(Punct::Colon))
}

/// Whether a value goes on behind it.
pub fn wants_value(kind: TokenKind) -> bool
    ensures { result ≡ wants_value kind }
{
    matches!(
        kind,
        TokenKind::Punct(Punct::Equal)
            | TokenKind::Punct(Punct::PlusEqual)
            | TokenKind::Punct(Punct::Plus)
    )
}

ghost use Rattle.std.specs.Prelude.{◌≡◌};
ghost use Rattle.ninja_file.specs.Escapes.{is_escaped};

/// What a text is in the file, which says which of its bytes have a dollar before them.
#[derive(Clone, Copy, Debug)]
pub enum Escape {
    Path,
    Value,
}

/// Whether a dollar stands before a byte.
pub fn is_escaped_byte(escape: Escape, byte: u8) -> bool
    ensures { result ≡ is_escaped escape byte }
{
    match escape {
        Escape::Path => byte == b'$' || byte == b' ' || byte == b':',
        Escape::Value => byte == b'$',
    }
}

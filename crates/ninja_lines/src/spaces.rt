ghost use Rattle.std.specs.Prelude.{◌≡◌};
ghost use Rattle.ninja_lines.specs.Meaning.{drop_spaces};

/// The text behind the spaces that it begins with.
pub fn drop_spaces(text: &str) -> &str
    ensures { result.now ≡ drop_spaces text.now }
{
    let mut rest = text;
    while let Some(behind) = rest.strip_prefix(' ') {
        rest = behind;
    }
    rest
}

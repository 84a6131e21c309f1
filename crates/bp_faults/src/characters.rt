ghost use Rattle.std.specs.Prelude.{◌≡◌};
ghost use Rattle.bp_faults.specs.Characters.{is_control, is_barred_in_paths};

/// Whether a character is a control character, which no text for users and no path holds.
pub fn is_control(c: char) -> bool
    ensures { result ≡ is_control c }
{
    c < ' ' || c == '\u{7f}'
}

/// Whether no path may hold the character, since Ninja or a terminal would read it as something else.
pub fn is_barred_in_paths(c: char) -> bool
    ensures { result ≡ is_barred_in_paths c }
{
    is_control(c) || c == '|'
}

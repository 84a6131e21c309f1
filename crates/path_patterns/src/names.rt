ghost use Rattle.std.specs.Prelude.{◌≡◌};
ghost use Rattle.std.specs.List.{list_any};
ghost use Rattle.bp_faults.specs.Paths.{is_component};
ghost use Rattle.path_patterns.specs.Matches.{is_barred_in_matches, is_clear};

/// Whether a name may be a component of a path in normal form.
pub fn is_component(name: &str) -> bool
    ensures { result ≡ is_component name.now }
{
    !matches!(name, "" | "." | "..")
}

fn is_barred(byte: u8) -> bool
    ensures { result ≡ is_barred_in_matches byte }
{
    byte == b'*' || byte < 32 || byte == 127 || byte == b'|'
}

fn has_barred(name: &str) -> bool
    ensures { result ≡ list_any is_barred_in_matches name.now }
{
    name.as_bytes().iter().any(|byte| is_barred(*byte))
}

/// Whether a matched path may have this name: it has no `*`, no `|` and no control character.
pub fn is_clear(name: &str) -> bool
    ensures { result ≡ is_clear name.now }
{
    !has_barred(name)
}

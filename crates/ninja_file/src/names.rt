ghost use Rattle.std.specs.Prelude.{◌≡◌, ◌==◌, not};
ghost use Rattle.std.specs.List.{list_all};
ghost use Rattle.ninja_file.specs.Names.{is_name_byte, is_name, is_shown, is_value, is_path, is_rule_key};

use bp_faults::is_control;

pub fn is_name_byte(byte: u8) -> bool
    ensures { result ≡ is_name_byte byte }
{
    byte.is_ascii_alphanumeric() || byte == b'_'
}

fn are_name_bytes(bytes: &[u8]) -> bool
    ensures { result ≡ list_all is_name_byte bytes.now }
{
    bytes.iter().all(|byte| is_name_byte(*byte))
}

pub fn is_name(text: &str) -> bool
    ensures { result ≡ is_name text.now }
{
    !text.is_empty() && are_name_bytes(text.as_bytes())
}

// Whether a byte is no control character.
fn is_shown(byte: u8) -> bool
    ensures { result ≡ is_shown byte }
{
    !is_control(char::from(byte))
}

fn are_shown(bytes: &[u8]) -> bool
    ensures { result ≡ list_all is_shown bytes.now }
{
    bytes.iter().all(|byte| is_shown(*byte))
}

pub fn is_value(text: &str) -> bool
    ensures { result ≡ is_value text.now }
{
    !text.is_empty() && are_shown(text.as_bytes())
}

fn has_no_bar(bytes: &[u8]) -> bool
    ensures { result ≡ list_all (λ b. not (b == 124)) bytes.now }
{
    bytes.iter().all(|byte| *byte != b'|')
}

pub fn is_path(text: &str) -> bool
    ensures { result ≡ is_path text.now }
{
    is_value(text) && has_no_bar(text.as_bytes())
}

/// Whether a rule may have a key.
pub fn is_rule_key(key: &str) -> bool
    ensures { result ≡ is_rule_key key.now }
{
    matches!(key, "command" | "description" | "depfile" | "deps")
}

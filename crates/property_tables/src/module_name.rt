ghost use Rattle.std.specs.Prelude.{◌≡◌};
ghost use Rattle.std.specs.List.{list_all};
ghost use Rattle.property_tables.specs.Meaning.{is_module_name_byte as name_byte, is_module_name as module_name};

use bp_faults::limits::LONGEST_MODULE_NAME;

fn is_name_byte(byte: u8) -> bool
    ensures { result ≡ name_byte byte }
{
    byte.is_ascii_alphanumeric() || matches!(byte, b'_' | b'.' | b'+' | b'-' | b'@')
}

fn has_name_bytes(name: &str) -> bool
    ensures { result ≡ list_all name_byte name.now }
{
    name.as_bytes().iter().all(|byte| is_name_byte(*byte))
}

/// Whether a module may have the name.
pub(crate) fn is_module_name(name: &str) -> bool
    ensures { result ≡ module_name name.now }
{
    1 <= name.len()
        && name.len() <= LONGEST_MODULE_NAME
        && has_name_bytes(name)
        && !matches!(name, "." | "..")
}

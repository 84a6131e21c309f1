ghost use Rattle.std.specs.Prelude.{◌≡◌, IfOk, string_bytes};
ghost use Rattle.near_names.specs.Joined.{comma_list};

use bp_faults::{OutOfMemory, Text};
use std::alloc::Global;

/// The names, joined by commas.
pub fn joined(alloc: Global, names: &[Text]) -> Result<String, OutOfMemory>
    ensures { IfOk result (λ text. string_bytes text ≡ comma_list names.now) }
{
    let mut text = String::new(alloc);
    if let [first, rest @ ..] = names {
        text.push_str(first.as_str())?;
        for name in rest {
            text.push_str(", ")?;
            text.push_str(name.as_str())?;
        }
    }
    Ok(text)
}

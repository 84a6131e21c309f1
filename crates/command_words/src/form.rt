ghost use Rattle.std.specs.Prelude.{◌≡◌, IfOk};
ghost use Rattle.command_words.specs.Forms.{value_form, has_form, is_value_of};

use crate::OptionName;
use crate::items::{has_items, is_identifier};
use crate::mutators::mutator_number;
use crate::number::number;
use crate::pairs::is_value_text;
use crate::targets::targets;
use bp_faults::OutOfMemory;
use bp_faults::limits::{MOST_SYNTHETIC_MODULES, MOST_WORKERS};
use std::alloc::Global;

/// The form of an option's value.
#[derive(Clone, Copy, Debug, Drop)]
pub enum Form {
    /// Any text that isn't empty and doesn't begin with `-`, as a path.
    Plain,
    /// A number from the first to the second, of at most ten digits.
    Number(u32, u32),
    /// Names of targets, joined by commas, none twice.
    Targets,
    /// The name of a mutator.
    Mutator,
    /// An identifier.
    Identifier,
    /// Texts joined by commas, none empty.
    Items,
}

impl OptionName {
    /// The form of the option's value.
    pub fn form(self) -> Form
        ensures { result ≡ value_form self }
    {
        match self {
            OptionName::Jobs => Form::Number(1, MOST_WORKERS),
            OptionName::Targets => Form::Targets,
            OptionName::After => Form::Mutator,
            OptionName::Seed => Form::Number(0, u32::MAX),
            OptionName::Modules => Form::Number(1, MOST_SYNTHETIC_MODULES),
            OptionName::Property => Form::Identifier,
            OptionName::Items => Form::Items,
            _ => Form::Plain,
        }
    }
}

impl Form {
    // Whether a text has the form.
    fn has(self, alloc: Global, text: &str) -> Result<bool, OutOfMemory>
        ensures { IfOk result (λ has. has ≡ has_form self text.now) }
    {
        match self {
            Form::Plain => Ok(true),
            Form::Number(low, high) => Ok(number(text, low, high).is_some()),
            Form::Targets => Ok(targets(alloc, text)?.is_some()),
            Form::Mutator => Ok(mutator_number(text).is_some()),
            Form::Identifier => Ok(is_identifier(text)),
            Form::Items => Ok(has_items(text)),
        }
    }
}

/// Whether a text is a value of the option.
pub fn is_value_of(alloc: Global, option: OptionName, text: &str) -> Result<bool, OutOfMemory>
    ensures { IfOk result (λ is. is ≡ is_value_of option text.now) }
{
    if is_value_text(text) {
        option.form().has(alloc, text)
    } else {
        Ok(false)
    }
}

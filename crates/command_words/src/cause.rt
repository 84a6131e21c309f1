use crate::{CommandName, OptionName};
use bp_faults::Text;

/// Why words give no configuration, with the word that it speaks of.
#[derive(Debug, Drop)]
pub enum Cause {
    /// There are no words.
    NoCommand,
    /// The first word names no command.
    UnknownCommand(Text),
    /// A word spells no option of the command.
    UnknownOption(CommandName, Text),
    /// A word spells an option that stood before.
    OptionTwice(Text),
    /// The last word spells an option, and no value stands behind it.
    ValueMissing(Text),
    /// The value of an option hasn't the option's form.
    ValueOutOfForm(OptionName, Text),
    /// No word spells the option, which must be given.
    OptionMissing(OptionName),
    /// OUT and the path of the option are the same text.
    EqualPaths(OptionName, Text),
}

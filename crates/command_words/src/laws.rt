//! What holds of all words: each law is the contract of a function that does nothing.

ghost use Rattle.command_words.specs.Laws.{EachCauseHolds, EachConfigurationIsSound, EachRefusalHasACause};
ghost use Rattle.command_words.specs.Laws.{EachPartIsOfItsCommand, HelpIsItsParts};
ghost use Rattle.command_words.specs.Laws.{NoticesAreNoCommands, QuestionsAreNoCommands};

/// Every configuration that words give is sound.
pub fn each_configuration_is_sound()
    ensures { EachConfigurationIsSound }
{}

/// Words that ask for a notice give no configuration.
pub fn notices_are_no_commands()
    ensures { NoticesAreNoCommands }
{}

/// Words that ask what is wrong with others give no configuration.
pub fn questions_are_no_commands()
    ensures { QuestionsAreNoCommands }
{}

/// Each command's part of the help begins with the command's name.
pub fn each_part_is_of_its_command()
    ensures { EachPartIsOfItsCommand }
{}

/// The help is its parts, with a blank line between them.
pub fn help_is_its_parts()
    ensures { HelpIsItsParts }
{}

/// Each cause holds of the words.
pub fn each_cause_holds()
    ensures { EachCauseHolds }
{}

/// There is a cause exactly where words give no configuration.
pub fn each_refusal_has_a_cause()
    ensures { EachRefusalHasACause }
{}

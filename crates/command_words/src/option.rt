ghost use Rattle.std.specs.Prelude.{◌≡◌};
ghost use Rattle.command_words.specs.Options.{option_name, short_name, is_required, is_spelling, is_same};
ghost use Rattle.command_words.specs.Words.{option_of};

use crate::CommandName;
use crate::command::options;

/// An option of a command.
#[derive(Clone, Copy, Debug, Drop)]
pub enum OptionName {
    List,
    Out,
    Jobs,
    Targets,
    Journal,
    Order,
    After,
    Seed,
    Modules,
    In,
    Module,
    Property,
    Items,
}

impl OptionName {
    /// The long name, without its dashes.
    pub fn name<'a>(self) -> &'a str
        ensures { result.now ≡ option_name self }
    {
        match self {
            OptionName::List => "list",
            OptionName::Out => "out",
            OptionName::Jobs => "jobs",
            OptionName::Targets => "targets",
            OptionName::Journal => "journal",
            OptionName::Order => "order",
            OptionName::After => "after",
            OptionName::Seed => "seed",
            OptionName::Modules => "modules",
            OptionName::In => "in",
            OptionName::Module => "module",
            OptionName::Property => "property",
            OptionName::Items => "items",
        }
    }

    /// The short name, without its dash.
    pub fn short(self) -> Option<char>
        ensures { result ≡ short_name self }
    {
        match self {
            OptionName::List => Some('l'),
            OptionName::Out => Some('o'),
            OptionName::Jobs => Some('j'),
            OptionName::Targets => Some('t'),
            OptionName::After => Some('a'),
            OptionName::In => Some('i'),
            OptionName::Module => Some('m'),
            OptionName::Property => Some('p'),
            _ => None,
        }
    }

    /// Whether a command that has the option must be given it.
    pub fn is_required(self) -> bool
        ensures { result ≡ is_required self }
    {
        !matches!(
            self,
            OptionName::Jobs | OptionName::Targets | OptionName::Journal | OptionName::Items
        )
    }

    /// Whether the word is the option in one of its spellings.
    pub fn is_spelled(self, word: &str) -> bool
        ensures { result ≡ is_spelling self word.now }
    {
        match self {
            OptionName::List => word == "--list" || word == "-l",
            OptionName::Out => word == "--out" || word == "-o",
            OptionName::Jobs => word == "--jobs" || word == "-j",
            OptionName::Targets => word == "--targets" || word == "-t",
            OptionName::Journal => word == "--journal",
            OptionName::Order => word == "--order",
            OptionName::After => word == "--after" || word == "-a",
            OptionName::Seed => word == "--seed",
            OptionName::Modules => word == "--modules",
            OptionName::In => word == "--in" || word == "-i",
            OptionName::Module => word == "--module" || word == "-m",
            OptionName::Property => word == "--property" || word == "-p",
            OptionName::Items => word == "--items",
        }
    }

    /// Whether the two options are the same one.
    pub fn is(self, other: OptionName) -> bool
        ensures { result ≡ is_same self other }
    {
        self.name() == other.name()
    }
}

/// The option of the command that the word spells.
pub fn option_spelled(command: CommandName, word: &str) -> Option<OptionName>
    ensures { result ≡ option_of command word.now }
{
    options(command)
        .iter()
        .copied()
        .find(|option| option.is_spelled(word))
}

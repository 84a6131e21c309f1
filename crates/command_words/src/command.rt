ghost use Rattle.std.specs.Prelude.{◌≡◌};
ghost use Rattle.command_words.specs.Notices.{part_of};
ghost use Rattle.command_words.specs.Options.{apart_of, command_name, command_named, options_of, usage_line};

use crate::OptionName;
use crate::help::HELP_PARTS;

/// A command of the program.
#[derive(Clone, Copy, Debug, Drop)]
pub enum CommandName {
    Build,
    Replay,
    Graph,
    Synth,
    Format,
    Edit,
}

/// The commands that bpgen has, in the order in which help and usage line name them.
pub const COMMANDS: [CommandName; 6] = [
    CommandName::Build,
    CommandName::Replay,
    CommandName::Graph,
    CommandName::Synth,
    CommandName::Format,
    CommandName::Edit,
];

impl CommandName {
    /// The word that names the command.
    pub fn name<'a>(self) -> &'a str
        ensures { result.now ≡ command_name self }
    {
        match self {
            CommandName::Build => "build",
            CommandName::Replay => "replay",
            CommandName::Graph => "graph",
            CommandName::Synth => "synth",
            CommandName::Format => "fmt",
            CommandName::Edit => "edit",
        }
    }
}

/// The command of a name.
pub fn command_named(word: &str) -> Option<CommandName>
    ensures { result ≡ command_named word.now }
{
    COMMANDS
        .iter()
        .copied()
        .find(|command| word == command.name())
}

/// The line for words that give no configuration. A test holds it against the commands.
pub fn usage_line() -> &'static str
    ensures { result.now ≡ usage_line }
{
    "usage: bpgen build|replay|graph|synth|fmt|edit OPTIONS\n"
}

/// The options of a command. Those that must be given stand first.
pub fn options(command: CommandName) -> &'static [OptionName]
    ensures { result.now ≡ options_of command }
{
    match command {
        CommandName::Build => &[
            OptionName::List,
            OptionName::Out,
            OptionName::Jobs,
            OptionName::Targets,
            OptionName::Journal,
        ],
        CommandName::Replay => &[
            OptionName::List,
            OptionName::Out,
            OptionName::Order,
            OptionName::Targets,
        ],
        CommandName::Graph => &[
            OptionName::List,
            OptionName::After,
            OptionName::Jobs,
            OptionName::Targets,
        ],
        CommandName::Synth => &[OptionName::Seed, OptionName::Modules, OptionName::Jobs],
        CommandName::Format => &[OptionName::In, OptionName::Out],
        CommandName::Edit => &[
            OptionName::In,
            OptionName::Out,
            OptionName::Module,
            OptionName::Property,
            OptionName::Items,
        ],
    }
}

/// The options of a command from whose paths OUT differs.
pub fn options_apart(command: CommandName) -> &'static [OptionName]
    ensures { result.now ≡ apart_of command }
{
    match command {
        CommandName::Build => &[OptionName::List, OptionName::Journal],
        CommandName::Replay => &[OptionName::List, OptionName::Order],
        _ => &[],
    }
}

/// A command's part of the help.
pub fn part_of(command: CommandName) -> &'static str
    ensures { result.now ≡ part_of command }
{
    match command {
        CommandName::Build => HELP_PARTS[1],
        CommandName::Replay => HELP_PARTS[2],
        CommandName::Graph => HELP_PARTS[3],
        CommandName::Synth => HELP_PARTS[4],
        CommandName::Format => HELP_PARTS[5],
        CommandName::Edit => HELP_PARTS[6],
    }
}

ghost use Rattle.std.specs.Prelude.{◌≡◌};
ghost use Rattle.std.specs.Option.{option_copied};
ghost use Rattle.command_words.specs.Notices.{notice_named, part_asked, notice_of, notice_text, question_of};

use crate::CommandName;
use crate::command::{command_named, part_of};
use crate::help::{HELP, VERSION};
use bp_faults::Text;

/// A text that words ask for in place of a command.
#[derive(Clone, Copy, Debug, Drop)]
pub enum Notice {
    Help,
    Version,
    /// A command's part of the help.
    Part(CommandName),
}

impl Notice {
    /// The text to print: `HELP`, one of its parts, or `VERSION`.
    pub fn text(self) -> &'static str
        ensures { result.now ≡ notice_text self }
    {
        match self {
            Notice::Help => HELP,
            Notice::Version => VERSION,
            Notice::Part(command) => part_of(command),
        }
    }
}

fn notice_named(word: &str) -> Option<Notice>
    ensures { result ≡ notice_named word.now }
{
    match word {
        "--help" | "-h" | "help" => Some(Notice::Help),
        "--version" | "-V" => Some(Notice::Version),
        _ => None,
    }
}

fn part_asked(first: &str, second: &str) -> Option<CommandName>
    ensures { result ≡ part_asked first.now second.now }
{
    if first == "help" {
        command_named(second)
    } else if second == "--help" {
        command_named(first)
    } else {
        None
    }
}

/// What exactly one word or exactly two ask for. Such words give no configuration, which is the law
/// `notices_are_no_commands`, so whoever prints notices asks here first.
pub fn notice_of(words: &[Text]) -> Option<Notice>
    ensures { result ≡ notice_of words.now }
{
    match words {
        [word] => notice_named(word.as_str()),
        [first, second] => match part_asked(first.as_str(), second.as_str()) {
            Some(command) => Some(Notice::Part(command)),
            None => None,
        },
        _ => None,
    }
}

/// The words of which others ask what is wrong with them: those behind `help`. The others give no configuration, which
/// is the law `questions_are_no_commands`.
pub fn question_of(words: &[Text]) -> Option<&[Text]>
    ensures { option_copied result ≡ question_of words.now }
{
    match words {
        [first, _, ..] if first.as_str() == "help" => Some(&words[1..]),
        _ => None,
    }
}

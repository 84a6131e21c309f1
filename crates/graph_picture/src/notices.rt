ghost use Rattle.std.specs.Prelude.{◌≡◌};
ghost use Rattle.std.specs.Option.{option_copied};
ghost use Rattle.graph_picture.specs.Notices.{picture_notice_named, picture_notice, PictureNoticeMeans};
ghost use Rattle.graph_picture.specs.Streams.{stream};

use crate::end::End;
use crate::help::{HELP, VERSION};
use bp_faults::Text;
use bp_ports::Sink;

/// The text that a word asks for.
fn picture_notice_named(word: &str) -> Option<&'static str>
    ensures { option_copied result ≡ picture_notice_named word.now }
{
    match word {
        "--help" => Some(HELP),
        "--version" => Some(VERSION),
        _ => None,
    }
}

/// The text that exactly one word asks for in place of a picture.
pub fn picture_notice(words: &[Text]) -> Option<&'static str>
    ensures { option_copied result ≡ picture_notice words.now }
{
    match words {
        [word] => picture_notice_named(word.as_str()),
        _ => None,
    }
}

/// Shows such a text.
pub fn shown<O: Sink>(text: &str, out: &mut O) -> End
    ensures { PictureNoticeMeans text.now (stream O.Sink out.old) (stream O.Sink out.new) result }
{
    match out.put(text.as_bytes()) {
        Ok(()) => End::Done,
        Err(_) => End::CannotWrite,
    }
}

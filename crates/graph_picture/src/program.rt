ghost use Rattle.std.specs.Prelude.{◌≡◌, ◌<◌, ◌^◌, ℕ, List, length};
ghost use Rattle.std.specs.Option.{option_copied};
ghost use Rattle.graph_picture.specs.Run.{owner_of, DrawMeans, AnswerMeans, RunMeans};
ghost use Rattle.graph_picture.specs.Streams.{input_stream, stream};
ghost use Rattle.graph_picture.specs.Words.{WordsMean};

use crate::end::{End, end_of};
use crate::input::{Input, read_input};
use crate::words::{Asked, asked_by};
use crate::{Focus, picture};
use bp_faults::Text;
use bp_ports::Sink;
use std::alloc::Global;

/// The name of the module in focus.
fn owner_of(focus: Option<&Focus>) -> &str
    ensures { result.now ≡ owner_of (option_copied focus.entry) }
{
    match focus {
        Some(focus) => focus.module.as_str(),
        None => "",
    }
}

/// Draws what a focus keeps of the graph of which some bytes are the text.
fn draw<O: Sink>(alloc: Global, bytes: &[u8], focus: Option<&Focus>, out: &mut O) -> End
    requires { length bytes.now < 2 ^ 32 }
    ensures { DrawMeans bytes.now (option_copied focus.entry) (stream O.Sink out.old) (stream O.Sink out.new) result }
{
    match picture(alloc, bytes, focus) {
        Ok(text) => match out.put(text.as_slice()) {
            Ok(()) => End::Done,
            Err(_) => End::CannotWrite,
        },
        Err(error) => end_of(alloc, &error, owner_of(focus)),
    }
}

/// Reads the input and draws what a focus keeps of it.
fn answer<I: Input, O: Sink>(
    alloc: Global,
    focus: Option<&Focus>,
    input: &mut I,
    out: &mut O,
) -> End
    ensures { AnswerMeans (option_copied focus.entry) (input_stream I.Input input.old)
        (input_stream I.Input input.new) (stream O.Sink out.old) (stream O.Sink out.new) result }
{
    match read_input(alloc, input) {
        Ok(bytes) => draw(alloc, &bytes, focus, out),
        Err(end) => end,
    }
}

/// Answers what is asked for. Where the words are wrong nothing is read.
fn answer_asked<I: Input, O: Sink>(alloc: Global, asked: &Asked, input: &mut I, out: &mut O) -> End
    ensures { (words : List (List ℕ)) → WordsMean words asked.now
        → RunMeans words (input_stream I.Input input.old) (input_stream I.Input input.new)
        (stream O.Sink out.old) (stream O.Sink out.new) result }
{
    match asked {
        Asked::Whole => answer(alloc, None, input, out),
        Asked::Near(focus) => answer(alloc, Some(focus), input, out),
        Asked::Wrong => End::Usage,
    }
}

/// Draws what the words ask for.
pub fn run<I: Input, O: Sink>(alloc: Global, words: &[Text], input: &mut I, out: &mut O) -> End
    ensures { RunMeans words.now (input_stream I.Input input.old) (input_stream I.Input input.new)
        (stream O.Sink out.old) (stream O.Sink out.new) result }
{
    match asked_by(alloc, words) {
        Ok(asked) => answer_asked(alloc, &asked, input, out),
        Err(_) => End::OutOfMemory,
    }
}

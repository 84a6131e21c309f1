ghost use Rattle.std.specs.Prelude.{◌≡◌, IfOk, IfErr};
ghost use Rattle.command_words.specs.Explanations.{explanation_of};
ghost use Rattle.command_words.specs.Notices.{notice_of, question_of};
ghost use Rattle.command_words.specs.Words.{configuration_of};
ghost use Rattle.bp_run.specs.Start.{AnswersWords, AnswersQuestion, AnswersNoWords, ExplainMeans, PrintMeans};
ghost use Rattle.bp_run.specs.World.{world, stream};

use crate::run;
use bp_faults::{OutOfMemory, Text};
use bp_ports::{FsStore, Gate, OpenGate, Sink, StdSink, Store};
use command_words::{explanation, notice_of, question_of};
use std::alloc::Global;
use std::io::ErrorKind;
use std::process::ExitCode;
use std::rt::Env;
use std::thread::Threads;
use std::{env, io};

// The words after the program's name.
fn read_words(rt: &(impl Env + AllocGlobal)) -> io::Result<Vec<Text>> {
    let mut words = Vec::new(rt.alloc());
    for word in env::args(rt)?.skip(1) {
        words.push(Text::new(word))?;
    }
    Ok(words)
}

// Prints the text of a notice: the exit status. It takes no memory, so the line for a failure is a literal.
fn print<O: Sink, D: Sink>(text: &str, out: &mut O, diag: &mut D) -> u8
    ensures { PrintMeans text.now (stream O.Sink out.old) (stream O.Sink out.new)
        (stream D.Sink diag.old) (stream D.Sink diag.new) result }
{
    match out.put(text.as_bytes()) {
        Ok(()) => 0,
        Err(_) => {
            let _ = diag.put(b"bpgen: cannot write standard output\n");
            4
        }
    }
}

// Prints what is wrong with the words, in one line: the exit status.
fn explain<O: Sink, D: Sink>(alloc: Global, words: &[Text], out: &mut O, diag: &mut D) -> u8
    ensures { ExplainMeans (explanation_of words.now) (stream O.Sink out.old) (stream O.Sink out.new)
        (stream D.Sink diag.old) (stream D.Sink diag.new) result }
{
    match explanation(alloc, words) {
        Ok(line) => print(line.as_str(), out, diag),
        Err(OutOfMemory) => {
            let _ = diag.put(b"bpgen: out of memory\n");
            5
        }
    }
}

// What the program does for words that ask for no notice: the exit status.
fn answer_question<R: Threads + Sync, S: Store, O: Sink, D: Sink, G: Gate + Sync>(
    rt: &R,
    alloc: Global,
    words: &[Text],
    store: &mut S,
    out: &mut O,
    diag: &mut D,
    gate: &G,
) -> u8
    ensures { AnswersQuestion (question_of words.now) (configuration_of words.now)
        (world S.Store O.Sink store.old out.old) (world S.Store O.Sink store.new out.new)
        (stream D.Sink diag.old) (stream D.Sink diag.new) result }
{
    match question_of(words) {
        Some(asked) => explain(alloc, asked, out, diag),
        None => run(rt, alloc, words, store, out, diag, gate),
    }
}

// What the program does where the system gives no words, by the kind of its error: the exit status. A word that isn't
// UTF-8 is such an error, and is answered as a faulty word is.
fn answer_error<R: Threads + Sync, S: Store, O: Sink, D: Sink, G: Gate + Sync>(
    rt: &R,
    alloc: Global,
    kind: ErrorKind,
    store: &mut S,
    out: &mut O,
    diag: &mut D,
    gate: &G,
) -> u8
    ensures { AnswersNoWords kind
        (world S.Store O.Sink store.old out.old) (world S.Store O.Sink store.new out.new)
        (stream D.Sink diag.old) (stream D.Sink diag.new) result }
{
    match kind {
        ErrorKind::OutOfMemory => 5,
        _ => run(rt, alloc, &[], store, out, diag, gate),
    }
}

// What the program does for the words that the system gives, or for its error where it gives none: the exit status.
fn answer<R: Threads + Sync, S: Store, O: Sink, D: Sink, G: Gate + Sync>(
    rt: &R,
    alloc: Global,
    given: Result<Vec<Text>, ErrorKind>,
    store: &mut S,
    out: &mut O,
    diag: &mut D,
    gate: &G,
) -> u8
    ensures words { IfOk given (λ words. AnswersWords (notice_of words.items) (question_of words.items)
        (configuration_of words.items)
        (world S.Store O.Sink store.old out.old) (world S.Store O.Sink store.new out.new)
        (stream D.Sink diag.old) (stream D.Sink diag.new) result) }
    ensures none { IfErr given (λ kind. AnswersNoWords kind
        (world S.Store O.Sink store.old out.old) (world S.Store O.Sink store.new out.new)
        (stream D.Sink diag.old) (stream D.Sink diag.new) result) }
{
    match given {
        Ok(words) => match notice_of(&words) {
            Some(notice) => print(notice.text(), out, diag),
            None => answer_question(rt, alloc, &words, store, out, diag, gate),
        },
        Err(kind) => answer_error(rt, alloc, kind, store, out, diag, gate),
    }
}

/// The program, over the real words, files and streams. The first argument is the runtime once more, as the one that
/// may start threads.
pub fn start<R: Threads + Sync>(threads: &R, rt: HostRuntime) -> ExitCode {
    ExitCode::from(answer(
        threads,
        rt.alloc(),
        read_words(&rt).map_err(|error| error.kind()),
        &mut FsStore::new(rt),
        &mut StdSink::out(rt),
        &mut StdSink::err(rt),
        &OpenGate,
    ))
}

ghost use Rattle.std.specs.Prelude.{◌≡◌, option_map};
ghost use Rattle.std.specs.Option.{option_copied};
ghost use Rattle.fault_view.specs.Program.{list_option, view_status, view_report, usage_line};
ghost use Rattle.fault_view.specs.Program.{view_notice_named, view_notice, status_without_words, line_without_words};
ghost use Rattle.fault_view.specs.Program.{Says, ViewNoticeMeans, IsLineReported};

use crate::help::{HELP, VERSION};
use crate::input::Counted;
use crate::view::{End, view};
use bp_faults::Text;
use bp_ports::{FsStore, Sink, StdSink};
use std::io::{BufReader, ErrorKind};
use std::process::ExitCode;
use std::rt::Env;
use std::{env, io};

// The words after the program's name.
fn read_words(rt: &(impl Env + AllocGlobal)) -> io::Result<Vec<Text>> {
    let mut words = Vec::new(rt.alloc());
    for word in env::args(rt)?.skip(1) {
        words.push(Text::new(word))?;
    }
    Ok(words)
}

// The text that a word asks for.
fn view_notice_named(word: &str) -> Option<&'static str>
    ensures { option_copied result ≡ view_notice_named word.now }
{
    match word {
        "--help" => Some(HELP),
        "--version" => Some(VERSION),
        _ => None,
    }
}

// The text that exactly one word asks for in place of a view.
fn view_notice(words: &[Text]) -> Option<&'static str>
    ensures { option_copied result ≡ view_notice words.now }
{
    match words {
        [word] => view_notice_named(word.as_str()),
        _ => None,
    }
}

// Shows such a text.
fn shown<O: Sink>(text: &str, out: &mut O) -> Result<(), End>
    ensures { ViewNoticeMeans O.Sink text.now out.old out.new result }
{
    match out.put(text.as_bytes()) {
        Ok(()) => Ok(()),
        Err(_) => Err(End::CannotWrite),
    }
}

// The list that the words name. There is none where there are no words.
fn list_of(words: &[Text]) -> Option<Option<&Text>>
    ensures { option_map option_copied result ≡ list_option words.now }
{
    match words {
        [] => Some(None),
        [option, list] if option.as_str() == "-l" => Some(Some(list)),
        _ => None,
    }
}

fn status(end: Result<(), End>) -> u8
    ensures { result ≡ view_status end }
{
    match end {
        Ok(()) => 0,
        Err(End::CannotRead) => 3,
        Err(End::CannotWrite) => 4,
        Err(End::OutOfMemory) => 5,
    }
}

// The line that reports an end, if it has one.
fn report(end: Result<(), End>) -> Option<&'static str>
    ensures { option_copied result ≡ view_report end }
{
    match end {
        Ok(()) => None,
        Err(End::CannotRead) => Some("fault_view: cannot read standard input\n"),
        Err(End::CannotWrite) => Some("fault_view: cannot write standard output\n"),
        Err(End::OutOfMemory) => Some("fault_view: out of memory\n"),
    }
}

// Reports an end: the exit status.
fn ended<D: Sink>(end: Result<(), End>, diag: &mut D) -> u8
    ensures status { result ≡ view_status end }
    ensures said { IsLineReported D.Sink (view_report end) diag.old diag.new }
{
    if let Some(line) = report(end) {
        let _ = diag.put(line.as_bytes());
    }
    status(end)
}

// Reports wrong words: the exit status.
fn usage<D: Sink>(diag: &mut D) -> u8
    ensures status { result ≡ 2 }
    ensures said { Says D.Sink usage_line diag.old diag.new }
{
    let _ = diag.put(b"usage: fault_view [-l LIST]\n");
    2
}

// Reports that the words can't be read: the exit status. A word that isn't UTF-8 is a wrong word.
fn without_words<D: Sink>(kind: ErrorKind, diag: &mut D) -> u8
    ensures status { result ≡ status_without_words kind }
    ensures said { Says D.Sink (line_without_words kind) diag.old diag.new }
{
    match kind {
        ErrorKind::OutOfMemory => ended(Err(End::OutOfMemory), diag),
        _ => usage(diag),
    }
}

/// The program, over the real files and streams.
pub fn start(rt: HostRuntime) -> ExitCode {
    let mut diag = StdSink::err(rt);
    let words = match read_words(&rt) {
        Ok(words) => words,
        Err(error) => return ExitCode::from(without_words(error.kind(), &mut diag)),
    };
    if let Some(text) = view_notice(&words) {
        let end = shown(text, &mut StdSink::out(rt));
        return ExitCode::from(ended(end, &mut diag));
    }
    let Some(list) = list_of(&words) else {
        return ExitCode::from(usage(&mut diag));
    };
    let end = match BufReader::new(rt.alloc(), rt.reader()) {
        Ok(reader) => view(
            rt.alloc(),
            list,
            &mut Counted::new(reader),
            &mut FsStore::new(rt),
            &mut StdSink::out(rt),
        ),
        Err(_) => Err(End::OutOfMemory),
    };
    ExitCode::from(ended(end, &mut diag))
}

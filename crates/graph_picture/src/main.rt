//! Draws a graph: the text of `bpgen graph` flows in, and a text for Graphviz flows out.
//!
//! It is measured by `specs/Run.antt`, over `specs/Picture.antt`: the picture of the graph of which the input is the
//! text (`specs/Lines.antt`, `specs/Reading.antt`), with what is near a module (`specs/Reach.antt`), drawn as
//! `specs/Drawing.antt` says.
#![tactic(auto)]

mod clusters;
mod draw;
mod end;
mod focus;
mod help;
mod input;
mod kind;
pub mod laws;
mod line;
mod lists;
mod notices;
mod number;
mod picture;
mod program;
mod reach;
mod read;
mod style;
mod variant;
mod words;

use bp_faults::Text;
use bp_ports::StdSink;
use end::end_without_words;
pub use focus::Focus;
use input::Counted;
use notices::{picture_notice, shown};
pub use picture::{PictureError, picture};
use program::run;
pub use read::{ReadError, read_graph};
use std::process::ExitCode;
use std::rt::Env;
use std::{env, io};
pub use variant::{Arrow, Variant};

#[cfg(test)]
mod tests;

/// The words after the program's name.
fn read_words(rt: &(impl Env + AllocGlobal)) -> io::Result<Vec<Text>> {
    let mut words = Vec::new(rt.alloc());
    for word in env::args(rt)?.skip(1) {
        words.push(Text::new(word))?;
    }
    Ok(words)
}

fn main(rt: HostRuntime) -> ExitCode {
    let end = match read_words(&rt) {
        Ok(words) => match picture_notice(&words) {
            Some(text) => shown(text, &mut StdSink::out(rt)),
            None => run(
                rt.alloc(),
                &words,
                &mut Counted::new(rt.reader()),
                &mut StdSink::out(rt),
            ),
        },
        Err(error) => end_without_words(error.kind()),
    };
    ExitCode::from(end.report(&mut StdSink::err(rt)))
}

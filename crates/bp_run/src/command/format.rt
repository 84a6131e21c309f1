//! `fmt`: FILE, laid out anew.

ghost use Rattle.std.specs.Prelude.{◌≡◌, ◌≤◌, length};
ghost use Rattle.bp_faults.specs.Answers.{Tells};
ghost use Rattle.bp_faults.specs.declared.limits.TheConstants.{LARGEST_FILE};
ghost use Rattle.bp_format.specs.Meaning.{FormatMeans};
ghost use Rattle.bp_run.specs.Commands.{over_file};
ghost use Rattle.bp_run.specs.Steps.{Prepares, ReadEnds};

use super::text::read_text;
use crate::puts::puts_to_file_or_end;
use crate::stopped::{end_by_refusal, end_by_stop};
use crate::{End, Put};
use bp_faults::{Refusal, Seq};
use bp_format::format;
use bp_ports::Store;
use command_words::Format;
use std::alloc::Global;

// The text, laid out anew.
fn format_text(alloc: Global, text: &str) -> Result<Seq<u8>, Refusal>
    requires { length text.now ≤ LARGEST_FILE }
    ensures { Tells (λ made. made) (FormatMeans 0 text.now) result }
{
    let made = format(alloc, text, 0)?;
    Ok(Seq::new(made.into_bytes()))
}

/// What `fmt` comes to: the text for OUT, or how it ends.
pub fn prepare<S: Store>(alloc: Global, words: &Format, store: &mut S) -> Result<Vec<Put>, End>
    ensures prepares { Prepares (over_file words.now.file words.now.out (FormatMeans 0)) (S.files store.old) result }
    ensures cause { ReadEnds (S.read_faults store.old) (S.read_faults store.new) result }
    ensures files { S.files store.new ≡ S.files store.old }
    ensures writes { S.write_faults store.new ≡ S.write_faults store.old }
{
    match read_text(alloc, &words.file, store) {
        Ok(text) => match format_text(alloc, text.as_str()) {
            Ok(made) => puts_to_file_or_end(alloc, &words.out, made),
            Err(refusal) => Err(end_by_refusal(alloc, words.file.as_str(), &[], refusal)),
        },
        Err(stop) => Err(end_by_stop(alloc, words.file.as_str(), &[], &stop)),
    }
}

//! `edit`: FILE, with a list set in it.

ghost use Rattle.std.specs.Prelude.{◌≡◌, ◌≤◌, length};
ghost use Rattle.bp_faults.specs.Answers.{Tells};
ghost use Rattle.bp_faults.specs.declared.limits.TheConstants.{LARGEST_FILE};
ghost use Rattle.bp_format.specs.Editing.{EditMeans};
ghost use Rattle.command_words.specs.Words.{IsSoundEdit};
ghost use Rattle.bp_run.specs.Commands.{over_file};
ghost use Rattle.bp_run.specs.Job.{wanted_of};
ghost use Rattle.bp_run.specs.Steps.{Prepares, ReadEnds};

use super::text::read_text;
use crate::puts::puts_to_file_or_end;
use crate::stopped::{end_by_refusal, end_by_stop};
use crate::{End, Put};
use bp_faults::{Refusal, Seq};
use bp_format::set_list;
use bp_ports::Store;
use command_words::Edit;
use std::alloc::Global;

// The text with the list set in it.
fn edit_text(alloc: Global, words: &Edit, text: &str) -> Result<Seq<u8>, Refusal>
    requires short { length text.now ≤ LARGEST_FILE }
    requires sound { IsSoundEdit words.now }
    ensures { Tells (λ made. made) (EditMeans 0 text.now (wanted_of words.now)) result }
{
    let items = words.items.as_slice();
    let made = set_list(alloc, text, 0, &words.name, &words.property, items)?;
    Ok(Seq::new(made.into_bytes()))
}

/// What `edit` comes to: the text for OUT, or how it ends.
pub fn prepare<S: Store>(alloc: Global, words: &Edit, store: &mut S) -> Result<Vec<Put>, End>
    requires { IsSoundEdit words.now }
    ensures prepares { Prepares
        (over_file words.now.file words.now.out (λ text. EditMeans 0 text (wanted_of words.now)))
        (S.files store.old) result }
    ensures cause { ReadEnds (S.read_faults store.old) (S.read_faults store.new) result }
    ensures files { S.files store.new ≡ S.files store.old }
    ensures writes { S.write_faults store.new ≡ S.write_faults store.old }
{
    match read_text(alloc, &words.file, store) {
        Ok(text) => match edit_text(alloc, words, text.as_str()) {
            Ok(made) => puts_to_file_or_end(alloc, &words.out, made),
            Err(refusal) => Err(end_by_refusal(alloc, words.file.as_str(), &[], refusal)),
        },
        Err(stop) => Err(end_by_stop(alloc, words.file.as_str(), &[], &stop)),
    }
}

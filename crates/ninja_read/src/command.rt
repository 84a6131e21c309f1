ghost use Rattle.std.specs.Prelude.{◌≡◌, Bool, map, unwrap_or};
ghost use Rattle.ninja_lines.specs.Shown.{shown_line, text_in};
ghost use Rattle.ninja_read.specs.Heads.{binding_of, form_of};
ghost use Rattle.ninja_read.specs.Meaning.{is_command, binds_command_in, binds_command_by, binds_command};

use crate::form::{LineForm, form_of};
use crate::head::binding_of;
use ninja_lines::Line;

fn is_command(text: &str) -> bool
    ensures { result ≡ is_command (binding_of text.now) }
{
    match binding_of(text) {
        None => false,
        Some((key, _)) => key == "command",
    }
}

// What a text says of whether `command` is bound, where it says it.
fn text_says(text: &str) -> Option<bool>
    ensures { (behind : Bool) → binds_command_by (form_of text.now) text.now behind ≡ unwrap_or result behind }
{
    match form_of(text) {
        LineForm::NoForm | LineForm::Skipped | LineForm::Default(_) => None,
        LineForm::Binding => { if is_command(text) { Some(true) } else { None } }
        LineForm::Rule(_) | LineForm::Build(_) => Some(false),
    }
}

fn line_says(line: &Line<'_>) -> Option<bool>
    ensures { (behind : Bool) → binds_command_in (text_in line.now.content) behind ≡ unwrap_or result behind }
{
    text_says(line.text()?)
}

/// Whether a line binds `command` before the next `rule` or `build`.
pub fn binds_command(lines: &[Line<'_>]) -> bool
    ensures { result ≡ binds_command (map shown_line lines.now) }
{
    for line in lines {
        if let Some(says) = line_says(line) {
            return says;
        }
    }
    false
}

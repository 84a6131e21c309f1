ghost use Rattle.std.specs.Prelude.{◌≡◌, option_map};
ghost use Rattle.ninja_read.specs.Inside.{shown_form};
ghost use Rattle.ninja_read.specs.Heads.{behind_word, declaration, form_of, says_nothing, begins_with_space};

use ninja_lines::{dangles, drop_spaces};

/// The form of a joined line. With the words `rule`, `build` and `default` comes what stands behind
/// them.
#[derive(Clone, Copy, Debug)]
pub enum LineForm<'a> {
    NoForm,
    Skipped,
    Binding,
    Rule(&'a str),
    Build(&'a str),
    Default(&'a str),
}

fn behind_word<'a>(text: &'a str, word: &str) -> Option<&'a str>
    ensures { option_map (λ rest. rest.now) result ≡ behind_word word.now text.now }
{
    match text.strip_prefix(word) {
        Some(rest) => Some(rest),
        None => None,
    }
}

fn declaration(text: &str) -> LineForm<'_>
    ensures { shown_form result ≡ declaration text.now }
{
    if let Some(rest) = behind_word(text, "build ") {
        LineForm::Build(rest)
    } else if let Some(rest) = behind_word(text, "rule ") {
        LineForm::Rule(rest)
    } else if let Some(rest) = behind_word(text, "default ") {
        LineForm::Default(rest)
    } else {
        LineForm::NoForm
    }
}

fn says_nothing(text: &str) -> bool
    ensures { result ≡ says_nothing text.now }
{
    matches!(text.as_bytes(), [] | [b'#', ..])
}

fn begins_with_space(text: &str) -> bool
    ensures { result ≡ begins_with_space text.now }
{
    matches!(text.as_bytes(), [b' ', ..])
}

/// The form of a joined line.
pub fn form_of(text: &str) -> LineForm<'_>
    ensures { shown_form result ≡ form_of text.now }
{
    if says_nothing(drop_spaces(text)) {
        if dangles(text.as_bytes()) {
            LineForm::NoForm
        } else {
            LineForm::Skipped
        }
    } else if begins_with_space(text) {
        LineForm::Binding
    } else {
        declaration(text)
    }
}

ghost use Rattle.std.specs.Prelude.{◌≡◌, option_map};
ghost use Rattle.ninja_lines.specs.Shown.{text_in};

use bp_faults::Text;

/// The text of a joined line: none where a line isn't UTF-8, a line as it stands, or several lines.
#[derive(Debug, Drop)]
pub enum LineText<'a> {
    NotText,
    Whole(&'a str),
    Joined(Text),
}

/// A joined line, by the number of its first line; or, where one of its lines isn't UTF-8, by the
/// number of that line. Lines are counted from 1.
#[derive(Debug, Drop)]
pub struct Line<'a> {
    pub number: u32,
    pub content: LineText<'a>,
}

impl Line<'_> {
    /// The text, where there is one.
    pub fn text(&self) -> Option<&str>
        ensures { option_map (λ text. text.now) result ≡ text_in self.now.content }
    {
        match &self.content {
            LineText::NotText => None,
            LineText::Whole(text) => Some(text),
            LineText::Joined(text) => Some(text.as_str()),
        }
    }
}

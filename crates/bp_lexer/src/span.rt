ghost use Rattle.std.specs.Prelude.{◌≡◌, ◌≤◌, length};
ghost use Rattle.bp_faults.specs.declared.limits.TheConstants.{LARGEST_FILE, LARGEST_LIST_FILE};
ghost use Rattle.bp_lexer.specs.Meaning.{IsToken, word_of};
ghost use Rattle.bp_lexer.specs.Places.{place_at};

use crate::Token;
use crate::place::advance;
use bp_faults::Place;

impl Token {
    ghost use Rattle.bp_lexer.specs.Meaning.{IsToken, word_of};

    /// The slice of the text that is the token.
    pub fn text(self, text: &str) -> &str
        requires { IsToken self.place.file text.now self }
        ensures { result.now ≡ word_of text.now self }
    {
        &text[self.start as usize..self.end as usize]
    }
}

/// The place of a byte, or of the end, of a file that has at most as many bytes as the list file may have. Columns
/// count the bytes that begin characters, whatever the others are.
pub fn place_in(bytes: &[u8], at: usize, file: u32) -> Place
    requires within { at ≤ length bytes.now }
    requires short { length bytes.now ≤ LARGEST_LIST_FILE }
    ensures { result ≡ place_at file bytes.now at }
{
    advance(bytes, 0, at, Place::start(file))
}

/// The place of the end of a text, which has at most as many bytes as a file may have.
pub fn place_of_end(text: &str, file: u32) -> Place
    requires { length text.now ≤ LARGEST_FILE }
    ensures { result ≡ place_at file text.now (length text.now) }
{
    place_in(text.as_bytes(), text.len(), file)
}

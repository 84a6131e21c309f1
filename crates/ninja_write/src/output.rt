ghost use Rattle.std.specs.Prelude.{◌≡◌, ℕ, ◌≤◌, ◌<◌, List, [], ◌∷◌, IsUtf8, length, string_bytes, string_len};
ghost use Rattle.std.specs.List.{flat_map};
ghost use Rattle.bp_faults.specs.declared.limits.TheConstants.{LARGEST_OUTPUT};
ghost use Rattle.ninja_write.specs.Inside.{Puts};

use bp_faults::limits::LARGEST_OUTPUT;
use std::alloc::{AllocError, AllocFailed, Global};
use std::marker::Model;
use thiserror::Error;

/// Why a file has no text.
#[derive(Clone, Copy, Debug, Error, PartialEq, Eq)]
pub enum WriteError {
    /// The text has more than `LARGEST_OUTPUT` bytes.
    #[error("the text is too large")]
    TooLarge,
    #[error("out of memory")]
    OutOfMemory,
}

impl From<AllocError> for WriteError {
    ghost use Rattle.std.specs.Prelude.{◌≡◌};
    ghost use Rattle.ninja_write.specs.declared.output.WriteError.TheVariants.{OutOfMemory as Want};

    ghost from_gives = { λ _ error. error ≡ Want };

    fn from(_: AllocError) -> Self {
        WriteError::OutOfMemory
    }
}

impl<T: Drop> From<AllocFailed<T>> for WriteError {
    ghost use Rattle.std.specs.Prelude.{◌≡◌};
    ghost use Rattle.ninja_write.specs.declared.output.WriteError.TheVariants.{OutOfMemory as Want};

    ghost from_gives = { λ _ error. error ≡ Want };

    fn from(_: AllocFailed<T>) -> Self {
        WriteError::OutOfMemory
    }
}

/// A text that grows up to the limit. Contracts see it as its bytes.
#[derive(Debug, Drop)]
pub struct Output {
    text: String,
}

impl Model for Output {
    ghost Value = { List ℕ };

    ghost view = { λ o. string_bytes o.text };

    ghost invariant = { λ o. string_len o.text ≤ LARGEST_OUTPUT };
}

impl Output {
    pub fn new(alloc: Global) -> Output
        ensures { result ≡ [] }
    {
        Output {
            text: String::new(alloc),
        }
    }

    /// The text as a slice.
    pub fn as_str(&self) -> &str
        ensures { result.now ≡ self.now }
    {
        self.text.as_str()
    }

    /// The text as bytes.
    pub fn into_bytes(self) -> Vec<u8>
        ensures bytes { result.items ≡ self }
        ensures fits { length result.items ≤ LARGEST_OUTPUT }
        ensures utf8 { IsUtf8 result.items }
    {
        let _text = self.text.as_str();
        self.text.into_bytes()
    }

    /// Puts a text behind what is there. A text that would pass the limit isn't built.
    pub fn put(&mut self, text: &str) -> Result<(), WriteError>
        ensures { Puts text.now self.old self.new result }
    {
        if text.len() > LARGEST_OUTPUT - self.text.len() {
            return Err(WriteError::TooLarge);
        }
        self.text.push_str(text)?;
        Ok(())
    }

    /// Puts a character of one byte behind what is there.
    pub fn put_char(&mut self, character: char) -> Result<(), WriteError>
        requires { character < 128 }
        ensures { Puts (character ∷ []) self.old self.new result }
    {
        if self.text.len() == LARGEST_OUTPUT {
            return Err(WriteError::TooLarge);
        }
        self.text.push(character)?;
        Ok(())
    }

    /// Puts another text behind what is there, and gives its memory back.
    pub fn append(&mut self, text: Output) -> Result<(), WriteError>
        ensures { Puts text self.old self.new result }
    {
        self.put(text.text.as_str())
    }

    /// Makes room for more bytes, as far as the limit goes. A text for which there is no room grows as it is put.
    pub fn make_room(&mut self, bytes: usize)
        ensures { self.new ≡ self.old }
    {
        let left = LARGEST_OUTPUT - self.text.len();
        let _room = self.text.reserve(bytes.min(left));
    }
}

/// What has a text in the file.
pub trait Written {
    ghost text: { Self → List ℕ };

    fn put(&self, output: &mut Output) -> Result<(), WriteError>
        ensures { Puts (text self.now) output.old output.new result };

    /// At least so many bytes are put.
    fn least(&self) -> usize
        ensures { result ≤ length (text self.now) };
}

/// At least so many bytes are put for all.
pub fn least_of_all<W: Written>(all: &[W]) -> usize
    ensures { result ≤ length (flat_map W.text all.now) }
{
    let mut bytes = 0usize;
    for one in all {
        bytes = bytes.saturating_add(one.least());
    }
    bytes
}

/// Puts the text of each, one behind the other.
pub fn put_all<W: Written>(output: &mut Output, all: &[W]) -> Result<(), WriteError>
    ensures { Puts (flat_map W.text all.now) output.old output.new result }
{
    for one in all {
        one.put(output)?;
    }
    Ok(())
}

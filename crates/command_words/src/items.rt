ghost use Rattle.std.specs.Prelude.{◌≡◌, IfOk};
ghost use Rattle.std.specs.List.{list_all};
ghost use Rattle.command_words.specs.Values.{is_first_byte, has_first_byte, is_further_byte, is_identifier};
ghost use Rattle.command_words.specs.Values.{has_bytes, names_in, items_of};

use bp_faults::{OutOfMemory, Seq, Text};
use std::alloc::Global;

fn is_first_byte(byte: u8) -> bool
    ensures { result ≡ is_first_byte byte }
{
    byte.is_ascii_alphabetic() || byte == b'_'
}

fn is_further_byte(byte: u8) -> bool
    ensures { result ≡ is_further_byte byte }
{
    byte.is_ascii_alphanumeric() || byte == b'_'
}

fn has_first_byte(text: &str) -> bool
    ensures { result ≡ has_first_byte text.now }
{
    match text.as_bytes() {
        [] => false,
        [first, ..] => is_first_byte(*first),
    }
}

fn has_further_bytes(text: &str) -> bool
    ensures { result ≡ list_all is_further_byte text.now }
{
    text.as_bytes().iter().all(|byte| is_further_byte(*byte))
}

/// Whether a text is an identifier, as the name of a property is one.
pub fn is_identifier(text: &str) -> bool
    ensures { result ≡ is_identifier text.now }
{
    has_first_byte(text) && has_further_bytes(text)
}

fn has_bytes(text: &str) -> bool
    ensures { result ≡ has_bytes text.now }
{
    text.len() > 0
}

/// Whether none of the texts that a value joins by `,` is empty.
pub fn has_items(text: &str) -> bool
    ensures { result ≡ list_all has_bytes (names_in text.now) }
{
    text.split(',').all(|item| has_bytes(item))
}

fn items_in(alloc: Global, text: &str) -> Result<Seq<Text>, OutOfMemory>
    ensures { IfOk result (λ items. items ≡ names_in text.now) }
{
    let mut items = Seq::new(Vec::new(alloc));
    for item in text.split(',') {
        items.push(Text::from_str(alloc, item)?)?;
    }
    Ok(items)
}

/// The items of a value: texts joined by `,`, none of them empty.
pub fn items(alloc: Global, text: &str) -> Result<Option<Seq<Text>>, OutOfMemory>
    ensures { IfOk result (λ items. items ≡ items_of text.now) }
{
    if has_items(text) {
        Ok(Some(items_in(alloc, text)?))
    } else {
        Ok(None)
    }
}

ghost use Rattle.std.specs.Prelude.{◌≡◌, ◌↔◌, IsTrue};
ghost use Rattle.std.specs.List.{list_all};
ghost use Rattle.bp_lexer.specs.declared.token.TokenKind.TheVariants.{Ident};
ghost use Rattle.bp_lexer.specs.Classes.{is_letter, is_word};
ghost use Rattle.bp_lexer.specs.Forms.{IsForm};

use bp_faults::Text;

fn is_letter(byte: u8) -> bool
    ensures { result ≡ is_letter byte }
{
    byte.is_ascii_alphabetic() || byte == b'_'
}

fn are_words(bytes: &[u8]) -> bool
    ensures { result ≡ list_all is_word bytes.now }
{
    for byte in bytes {
        if !(byte.is_ascii_alphanumeric() || *byte == b'_') {
            return false;
        }
    }
    true
}

/// Whether a text is an identifier, as a property is.
pub fn is_identifier(text: &Text) -> bool
    ensures { IsTrue result ↔ IsForm Ident text.now }
{
    let bytes = text.as_str().as_bytes();
    !bytes.is_empty() && is_letter(bytes[0]) && are_words(&bytes[1..])
}

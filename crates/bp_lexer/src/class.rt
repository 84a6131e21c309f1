ghost use Rattle.std.specs.Prelude.{◌≡◌, ◌+◌, ◌≤◌, length, drop, slice_index};
ghost use Rattle.std.specs.List.{prefix_len};
ghost use Rattle.bp_lexer.specs.Classes.{in_class};

/// What a run of bytes is made of.
#[derive(Clone, Copy)]
pub enum Class {
    White,
    Space,
    Letter,
    Word,
    Digit,
    Line,
    Raw,
}

pub fn in_class(class: Class, byte: u8) -> bool
    ensures { result ≡ in_class class byte }
{
    match class {
        Class::White => matches!(byte, b' ' | b'\t' | b'\r' | b'\n'),
        Class::Space => byte == b' ',
        Class::Letter => byte.is_ascii_alphabetic() || byte == b'_',
        Class::Word => byte.is_ascii_alphanumeric() || byte == b'_',
        Class::Digit => byte.is_ascii_digit(),
        Class::Line => byte != b'\n',
        Class::Raw => byte != b'`',
    }
}

/// How many bytes from a place on are of the class.
pub fn run_len(bytes: &[u8], from: usize, class: Class) -> usize
    requires { from ≤ length bytes.now }
    ensures run { result ≡ prefix_len (in_class class) (drop from bytes.now) }
    ensures within { from + result ≤ length bytes.now }
{
    let mut count = 0;
    while from + count < bytes.len() && in_class(class, bytes[from + count]) {
        count += 1;
    }
    count
}

/// The second byte, and 0 where there is none.
pub fn second(text: &[u8]) -> u8
    ensures { result ≡ slice_index text.now 1 }
{
    if text.len() > 1 { text[1] } else { 0 }
}

/// Why no token begins at a place.
#[derive(Clone, Copy)]
pub enum Flaw {
    BadChar,
    OpenString,
    OpenComment,
    /// How far behind the quote the backslash stands.
    BadEscape(usize),
    /// The number's length.
    BadNumber(usize),
}

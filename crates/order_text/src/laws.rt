//! What holds of order files and journals: each law is the contract of a function that does nothing.

ghost use Rattle.order_text.specs.Laws.{JournalsAreReadBack, OneLines, SomeLines};

/// All bytes are some lines.
pub fn some_lines()
    ensures { SomeLines }
{}

/// Bytes are one list of lines alone.
pub fn one_lines()
    ensures { OneLines }
{}

/// The lines of a journal's text say its visits and nothing else.
pub fn journals_are_read_back()
    ensures { JournalsAreReadBack }
{}

//! What makes the meaning of a text believable: each law is the contract of a function that does nothing.

ghost use Rattle.bp_lexer.specs.Laws.{OneTokenList, SomeListOrFault, NotListAndFault, OneFault, OneMeaning};
ghost use Rattle.bp_lexer.specs.Laws.{ColumnsCountCharacters};
ghost use Rattle.bp_lexer.specs.Laws.{FormsHaveBytes, FormsStandApart, TokensStandWithin, PlacesRise, ListsHaveTokens};
ghost use Rattle.bp_lexer.specs.Laws.{IntegersAreNumerals};

/// A text has at most one token list.
pub fn one_token_list()
    ensures { OneTokenList }
{}

/// A text has a token list or a first fault, and never both.
pub fn list_or_fault()
    ensures either { SomeListOrFault }
    ensures never_both { NotListAndFault }
{}

/// A text has at most one first fault.
pub fn one_fault()
    ensures { OneFault }
{}

/// A text has at most one meaning: its token list or its first fault.
pub fn one_meaning()
    ensures { OneMeaning }
{}

/// A column is one more than the characters before it on its line, where the text is UTF-8 and the
/// place is between two of its characters.
pub fn columns_count_characters()
    ensures { ColumnsCountCharacters }
{}

/// A form has a byte, and begins with no white space.
pub fn forms_have_bytes()
    ensures { FormsHaveBytes }
{}

/// A form is the longest token of a text where the byte behind it doesn't go on with it.
pub fn forms_stand_apart()
    ensures { FormsStandApart }
{}

/// A token has a byte, lies within its text, and begins and ends where characters do.
pub fn tokens_stand_within()
    ensures { TokensStandWithin }
{}

/// Places rise from token to token.
pub fn places_rise()
    ensures { PlacesRise }
{}

/// Each token of a list is a token of the text.
pub fn lists_have_tokens()
    ensures { ListsHaveTokens }
{}

/// An integer is a numeral behind its sign, if it has one, so that `parse` reads it.
pub fn integers_are_numerals()
    ensures { IntegersAreNumerals }
{}

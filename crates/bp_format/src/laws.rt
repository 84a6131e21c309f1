//! What holds of formatting and of editing: each law is the contract of a function that does nothing.

ghost use Rattle.bp_format.specs.Laws.{LayoutsHaveTokens, LayoutsKeepTokens, LayoutsKeepTrees, LayoutsAreKept};
ghost use Rattle.bp_format.specs.Laws.{ListsGiveWay, EntriesStandBehindNames};
ghost use Rattle.bp_format.specs.Laws.{OneFormat, SomeFormat, OneEdit, SomeEdit, EditsSetLists, EscapesAreUndone};

use bp_lexer::laws::{
    forms_have_bytes, forms_stand_apart, list_or_fault, one_fault, one_token_list, places_rise,
    tokens_stand_within,
};
use bp_parser::laws::{
    names_of_a_map_differ, one_fault as one_tree_fault, one_tree, spelled_definitions_are_trees,
    tree_or_fault,
};

/// A formatted text has tokens.
pub fn layouts_have_tokens()
    ensures { LayoutsHaveTokens }
{
    one_token_list();
    forms_have_bytes();
    forms_stand_apart();
    tokens_stand_within();
    places_rise();
}

/// The tokens of a formatted text have the kinds and the texts of those of the text.
pub fn layouts_keep_tokens()
    ensures { LayoutsKeepTokens }
{
    one_token_list();
    forms_have_bytes();
    forms_stand_apart();
    tokens_stand_within();
    places_rise();
}

/// The tree of a formatted text is that of the text, but for places.
pub fn layouts_keep_trees()
    ensures { LayoutsKeepTrees }
{
    one_token_list();
    forms_have_bytes();
    forms_stand_apart();
    tokens_stand_within();
    places_rise();
}

/// A formatted text, formatted again, is the same.
pub fn layouts_are_kept()
    ensures { LayoutsAreKept }
{
    one_token_list();
    forms_have_bytes();
    forms_stand_apart();
    tokens_stand_within();
    places_rise();
}

/// A text comes to one layout or one fault.
pub fn one_format()
    ensures one { OneFormat }
    ensures some { SomeFormat }
{
    one_token_list();
    list_or_fault();
    one_fault();
    one_tree();
    tree_or_fault();
    one_tree_fault();
}

/// A text and what is wanted come to one edited text or one fault.
pub fn one_edit()
    ensures one { OneEdit }
    ensures some { SomeEdit }
{
    one_token_list();
    list_or_fault();
    one_fault();
    one_tree();
    tree_or_fault();
    one_tree_fault();
    tokens_stand_within();
    places_rise();
}

/// Characters that are escaped stand for themselves again.
pub fn escapes_are_undone()
    ensures { EscapesAreUndone }
{}

/// The tree of an edited text is that of the text with the list set, but for places.
pub fn edits_set_lists()
    ensures { EditsSetLists }
{
    one_tree();
    names_of_a_map_differ();
    spelled_definitions_are_trees();
    one_token_list();
    forms_have_bytes();
    forms_stand_apart();
    tokens_stand_within();
    places_rise();
}

/// The span of an edit is the tokens of the old list, from the first to the last; or there is no old list, and it is
/// nothing, behind the name.
pub fn spans_are_values()
    ensures list { ListsGiveWay }
    ensures name { EntriesStandBehindNames }
{
    tokens_stand_within();
    places_rise();
}

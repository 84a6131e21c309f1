//! What makes the definitions of loading believable: each law is the contract of a function that does nothing.

ghost use Rattle.bp_load.specs.Laws.{SomeList, OneList, ListsWhatMayBe, AncestorsStandFirst, SomeRaw, OneRaw, SomeLoad};
ghost use Rattle.bp_load.specs.Laws.{OneLoad};

/// A list file means its paths or a first fault, and that alone.
pub fn one_list()
    ensures some { SomeList }
    ensures one { OneList }
{}

/// A list gives no path but one that may be listed.
pub fn lists_what_may_be()
    ensures { ListsWhatMayBe }
{}

/// In file order a directory stands before those below it.
pub fn ancestors_stand_first()
    ensures { AncestorsStandFirst }
{}

/// Files mean their raw modules or a first fault, and that alone. It stands on the laws of tokens and trees.
pub fn one_raw()
    ensures some { SomeRaw }
    ensures one { OneRaw }
{
    bp_lexer::laws::list_or_fault();
    bp_lexer::laws::one_meaning();
    bp_parser::laws::tree_or_fault();
    bp_parser::laws::one_meaning();
}

/// Files load as their modules or a first fault, and that alone.
pub fn one_load()
    ensures some { SomeLoad }
    ensures one { OneLoad }
{
    one_raw();
}

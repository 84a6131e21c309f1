//! What holds of passes along the lines of an order file: each law is the contract of a function that does nothing.

ghost use Rattle.pass_ways.specs.Laws.{PartsAreShort, LegalOrdersAreWhole, LinesSayOneOrder, RefusedHaveNoOrder};
ghost use Rattle.pass_ways.specs.Laws.{OneRefusal};

/// A part of a pass has fewer entries than the plan has nodes.
pub fn parts_are_short()
    ensures { PartsAreShort }
{}

/// A legal order has as many entries as the plan has nodes.
pub fn legal_orders_are_whole()
    ensures { LegalOrdersAreWhole }
{}

/// Lines say one legal order of a pass alone.
pub fn lines_say_one_order()
    ensures { LinesSayOneOrder }
{}

/// Lines that say a legal order of a pass aren't refused in it.
pub fn refused_have_no_order()
    ensures { RefusedHaveNoOrder }
{}

/// Lines are refused with one fault alone.
pub fn one_refusal()
    ensures { OneRefusal }
{}

//! What holds of every plan without a cycle: each law is the contract of a function that does nothing.

ghost use Rattle.serial_pass.specs.Laws.{InEdgesAreTogether, EdgeNumbersAreTogether};
ghost use Rattle.serial_pass.specs.Laws.{StartsOfEdgesRise, IndicesTellTargets};
ghost use Rattle.serial_pass.specs.Laws.{PredecessorsAreNodes, PredecessorsAreLess, PredecessorsComeBefore};
ghost use Rattle.serial_pass.specs.Laws.{HeightsMeetTheirEquation, HeightsAreBelowTheCount, RecursionMeetsItsEquation};
ghost use Rattle.serial_pass.specs.Laws.{OneSerialOrder, SerialIsLegal, EarlierNodesStandEarlier};
ghost use Rattle.serial_pass.specs.Laws.{ResultsMeetTheirEquation, OneSolution, FirstUndoneIsBad};
ghost use Rattle.serial_pass.specs.Laws.{OneOutcome, AtMostOneOutcome, PassGathers};
ghost use Rattle.serial_pass.specs.Laws.{OutsAreMany, OutsMeetTheirEquation};

/// The edges into a node stand together.
pub fn in_edges_are_together()
    ensures { InEdgesAreTogether }
{}

/// The numbers of the edges into a node stand together.
pub fn edge_numbers_are_together()
    ensures { EdgeNumbersAreTogether }
{}

/// The indices at which the in-edges of the nodes begin rise with the nodes.
pub fn starts_of_edges_rise()
    ensures { StartsOfEdgesRise }
{}

/// The index of an edge tells whether it leads below a node.
pub fn indices_tell_targets()
    ensures { IndicesTellTargets }
{}

/// The predecessors of a node are nodes.
pub fn predecessors_are_nodes()
    ensures { PredecessorsAreNodes }
{}

/// What rises along the edges is less at a node's predecessors.
pub fn predecessors_are_less()
    ensures { PredecessorsAreLess }
{}

/// A node's predecessors come before it.
pub fn predecessors_come_before()
    ensures { PredecessorsComeBefore }
{}

/// A node's height is below the number of nodes.
pub fn heights_are_below_the_count()
    ensures { HeightsAreBelowTheCount }
{}

/// A value by recursion over predecessors meets its equation.
pub fn recursion_meets_its_equation<X>()
    ensures { RecursionMeetsItsEquation X }
{}

/// In the serial order a node that comes before another stands before it.
pub fn earlier_nodes_stand_earlier()
    ensures { EarlierNodesStandEarlier }
{}

/// A pass over any plan has at most one outcome.
pub fn at_most_one_outcome<O>()
    ensures { AtMostOneOutcome O }
{}

/// A node's height by those of its predecessors.
pub fn heights_meet_their_equation()
    ensures { HeightsMeetTheirEquation }
{}

/// There is exactly one serial order.
pub fn one_serial_order()
    ensures { OneSerialOrder }
{}

/// The serial order is legal.
pub fn serial_order_is_legal()
    ensures { SerialIsLegal }
{}

/// A node's result by those of its predecessors: all that the layers above use of results.
pub fn results_meet_their_equation<O>()
    ensures { ResultsMeetTheirEquation O }
{}

/// Nothing but the results meets their equation.
pub fn one_solution<O>()
    ensures { OneSolution O }
{}

/// The fault of a pass is a node's own.
pub fn first_undone_is_bad<O>()
    ensures { FirstUndoneIsBad O }
{}

/// A pass has exactly one outcome.
pub fn one_outcome<O>()
    ensures { OneOutcome O }
{}

/// A pass makes as many results as it has nodes.
pub fn outs_are_many<O>()
    ensures { OutsAreMany O }
{}

/// The results of a whole pass meet their equation, node by node.
pub fn outs_meet_their_equation<O>()
    ensures { OutsMeetTheirEquation O }
{}

/// A pass whose meaning is a step's gathers what the step makes of all nodes.
pub fn pass_gathers<O>()
    ensures { PassGathers O }
{}

//! What a board shows: each law is the contract of a function that only calls the laws it rests on.

ghost use Rattle.ready_counters.specs.Laws.{NewBoardShowsBeginning, StepsAreCoreSteps, DoneBoardShowsFinished};
ghost use Rattle.ready_counters.specs.Laws.{BoardsKeepTheirParts};

use serial_pass::laws::results_meet_their_equation;

/// A new board shows a core of which nothing is done.
pub fn new_board_shows_beginning<O>()
    ensures { NewBoardShowsBeginning O }
{}

/// Each step of a seat is the core step of its kind, or leaves the core as it was.
pub fn steps_are_core_steps<O>()
    ensures { StepsAreCoreSteps O }
{
    results_meet_their_equation::<O>();
}

/// A board on which a whole seat has done all shows a finished core.
pub fn done_board_shows_finished<O>()
    ensures { DoneBoardShowsFinished O }
{}

/// What the rule of a board says of its entries, counters, claims, states, views, slots and tickets.
pub fn boards_keep_their_parts<O>()
    ensures { BoardsKeepTheirParts O }
{}

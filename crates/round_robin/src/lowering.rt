//! Laws about lines that are lowered by an offset: the contract of each function is one law, and its body does
//! nothing.
ghost use Rattle.round_robin.specs.Lowering.{LinesAreLowered, LoweredTournamentsAreTrue, TournamentsAreLowered};

use crate::laws::{lines_hold, ranks_are_true, totals_hold_true_totals};
use fixed_span::spans_are_lowered;
use history_model::{automata_are_weighed, offset_lowers};
use result_lines::laws::totals_are_lowered;

/// The line of a match that is lowered by an offset is the line of the game whose payoffs are each less by it,
/// and holds what both expect there.
pub fn lines_are_lowered()
    ensures { LinesAreLowered }
{
    automata_are_weighed();
    offset_lowers();
    spans_are_lowered();
    lines_hold();
}

/// The totals of lines that are lowered hold the true totals of the game whose payoffs are each less by the
/// offset, and a rank by these totals that isn't undecided is the true rank there.
pub fn lowered_tournaments_are_true()
    ensures { LoweredTournamentsAreTrue }
{
    lines_are_lowered();
    totals_are_lowered();
    totals_hold_true_totals();
    ranks_are_true();
}

/// The results of a tournament can be lowered. Their lines are then those of the game whose payoffs are each
/// less by the offset, and hold what the entries expect there.
pub fn tournaments_are_lowered()
    ensures { TournamentsAreLowered }
{
    lines_hold();
    lines_are_lowered();
    totals_are_lowered();
}

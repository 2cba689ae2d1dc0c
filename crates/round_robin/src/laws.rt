//! Laws, proved once: a caller has one by calling its function, which does nothing.
ghost use Rattle.round_robin.specs.Entries.{EntriesAreTrue};
ghost use Rattle.round_robin.specs.Laws.{LinesHold};
ghost use Rattle.round_robin.specs.Truth.{RanksAreTrue, SumsAreHeld, TotalsHoldTrueTotals, TournamentsAreTrue};

use crate::lowering::{lines_are_lowered, lowered_tournaments_are_true, tournaments_are_lowered};
use fixed_span::verdicts_are_true;
use history_model::{
    automata_are_weighed, counts_are_paid, histories_agree_with_rows, offset_lowers,
};
use sheet_rules::entrants_follow_their_rules;

/// A sure match pays as both sides expect, and so the line of every match holds what both expect.
pub fn lines_hold()
    ensures { LinesHold }
{
    automata_are_weighed();
    counts_are_paid();
    histories_agree_with_rows();
    offset_lowers();
}

/// The sum of two spans holds the sum of any two fractions that they hold.
pub fn sums_are_held()
    ensures { SumsAreHeld }
{}

/// Where the spans of matches hold what the entries expect, totals hold the true totals.
pub fn totals_hold_true_totals()
    ensures { TotalsHoldTrueTotals }
{}

/// Where spans hold fractions, a rank that isn't undecided is the true rank of these.
pub fn ranks_are_true()
    ensures { RanksAreTrue }
{
    verdicts_are_true();
}

/// The totals of a tournament hold the true totals, and a rank that isn't undecided is the true rank.
pub fn tournaments_are_true()
    ensures { TournamentsAreTrue }
{
    lines_hold();
    totals_hold_true_totals();
    ranks_are_true();
}

/// A line between what two entrants play, lowered by an offset, is right by the rules of their sheets. So are
/// all lines of a tournament, whose totals hold the true totals by these rules, and whose ranks are the true
/// ranks where they aren't undecided.
pub fn entries_are_true()
    ensures { EntriesAreTrue }
{
    entrants_follow_their_rules();
    lines_are_lowered();
    lowered_tournaments_are_true();
    tournaments_are_lowered();
}
